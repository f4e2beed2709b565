//! How a core comes to be shared, and how it is had back.
ghost use Rattle.std.specs.Prelude.{◌≡◌, ◌<◌, ◌≤◌, [], map, All, IfErr, IfOk, vec_capacity};
ghost use Rattle.core_lock.specs.Counts.{numbers_from};
ghost use Rattle.core_lock.specs.Passes.{AreUnused, IsIn, number};
ghost use Rattle.kernel_model.specs.History.{IsLegal};
ghost use Rattle.kernel_model.specs.Turns.{cpu_of};
ghost use Rattle.kernel_state.specs.Meaning.{booted_of, events_of, terms_of};
ghost use Rattle.kernel_state.specs.Terms.{kept_terms};
ghost use Rattle.normal_cpus.specs.Sharing.{AreAllCpusOf, AreCpusOf, boot_of};

use crate::shared_core::{CpuPass, SharedCore};
use base::NoMemory;
use core_lock::CoreLock;
use kernel_state::{Core, journals_stay_legal};
use std::alloc::Global;

/// Shares a core that keeps its events, and where nothing has happened: a pass for each of its processors, in the order of their
/// numbers. Their list has room for as many, so they can be put back without memory. At `Err` there was no memory, and the core
/// comes back.
pub fn share(alloc: Global, core: Core) -> Result<(SharedCore, Vec<CpuPass>), (Core, NoMemory)>
    requires fresh { events_of core ≡ [] }
    requires kept { terms_of core ≡ kept_terms }
    ensures boot { IfOk result (λ r. boot_of r.0 ≡ booted_of core) }
    ensures numbers { IfOk result (λ r. map number r.1.items ≡ numbers_from 0 (booted_of core).cpus) }
    ensures passes { IfOk result (λ r. AreCpusOf r.0 r.1.items × AreUnused r.1.items) }
    ensures room { IfOk result (λ r. (booted_of core).cpus ≤ vec_capacity r.1) }
    ensures err { IfErr result (λ e. e.0 ≡ core) }
{
    journals_stay_legal();
    let cpus = core.parts.setup.cpus;
    let (lock, passes) = CoreLock::new(alloc, core, u32::from(cpus))?;
    Ok((SharedCore { lock }, passes))
}

impl SharedCore {
    /// The core, once all passes are back, in any order. Its events are a legal history from its boot, which is that of the core
    /// that was shared. They begin with all that each pass has seen, and have of each processor just the events that its pass made,
    /// and no others.
    pub fn close(self, passes: Vec<CpuPass>) -> Core
        requires own { AreCpusOf self passes.items }
        requires all { AreAllCpusOf self passes.items }
        ensures boot { booted_of result ≡ boot_of self }
        ensures kept { terms_of result ≡ kept_terms }
        ensures legal { IsLegal (boot_of self) (events_of result) }
        ensures passes { All (IsIn cpu_of (events_of result)) passes.items }
        ensures cpus { All (λ event. cpu_of event < (boot_of self).cpus) (events_of result) }
    {
        journals_stay_legal();
        let SharedCore { lock } = self;
        lock.close(passes)
    }
}
