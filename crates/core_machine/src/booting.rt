//! A machine of a core that is booted.
ghost use Rattle.std.specs.Prelude.{◌≡◌, [], All, IfOk, map};
ghost use Rattle.base.specs.Zeros.{zeros};
ghost use Rattle.core_machine.specs.Standing.{IsAt};
ghost use Rattle.kernel_model.specs.Application.{IsBooted, booted};
ghost use Rattle.kernel_state.specs.Meaning.{booted_of, events_of, terms_of};
ghost use Rattle.kernel_state.specs.Terms.{kept_terms};
ghost use Rattle.native_tas.specs.Table.{entries};
ghost use Rattle.play_model.specs.Play.{first_play, first_play_within};
ghost use Rattle.trace_text.specs.Sound.{IsSoundBoot, IsSoundFill};

use crate::filling::first_lanes;
use crate::machine::Machine;
use base::NoMemory;
use core_at_work::core_of;
use kernel_state::Core;
use native_tas::Natives;
use std::alloc::Global;
use ta_isa::Boot;
use trace_text::Fill;

impl Machine {
    /// A machine of a core where nothing has happened, with these fills for each of its processors.
    pub fn with_fills(alloc: Global, core: Core, fills: &[Fill]) -> Result<Machine, NoMemory>
        requires fresh { events_of core ≡ [] }
        requires fills { All IsSoundFill fills.now }
        ensures stands { IfOk result (λ machine. IsAt (booted_of core)
            (first_play_within (terms_of core).most (zeros 0x400000) (booted_of core) fills.now) machine) }
        ensures terms { IfOk result (λ machine. terms_of machine.at_work.core ≡ terms_of core) }
    {
        let lanes = first_lanes(alloc, core.parts.setup.cpus, fills)?;
        Machine::new(alloc, core, lanes)
    }

    /// A machine of this boot, beside applications that are built in, with these fills for each of its processors. Its core
    /// keeps its events, and its entries may read 2^28 bytes.
    pub fn booted(
        alloc: Global,
        boot: Boot,
        natives: &Natives,
        fills: &[Fill],
    ) -> Result<Machine, NoMemory>
        requires boot { IsSoundBoot (map (λ native. native.0) (entries natives.now)) boot }
        requires fills { All IsSoundFill fills.now }
        ensures stands { IfOk result (λ machine.
            IsAt (booted boot (entries natives.now))
            (first_play (zeros 0x400000) (booted boot (entries natives.now)) fills.now) machine) }
        ensures boots { IfOk result (λ machine. IsBooted (booted boot (entries natives.now))) }
        ensures terms { IfOk result (λ machine. terms_of machine.at_work.core ≡ kept_terms) }
    {
        let core = core_of(alloc, boot, natives)?;
        Machine::with_fills(alloc, core, fills)
    }
}
