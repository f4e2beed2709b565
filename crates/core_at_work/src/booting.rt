//! What a core at work begins with: a core that was booted.
ghost use Rattle.std.specs.Prelude.{◌≡◌, ◌≤◌, ◌^◌, [], IfOk};
ghost use Rattle.core_at_work.specs.Booting.{IsApart};
ghost use Rattle.kernel_model.specs.Application.{IsBooted, booted};
ghost use Rattle.kernel_state.specs.Booting.{IsWithinLimits};
ghost use Rattle.kernel_state.specs.Meaning.{booted_of, events_of, terms_of};
ghost use Rattle.kernel_state.specs.Terms.{kept_terms};
ghost use Rattle.native_tas.specs.Table.{entries};

use base::NoMemory;
use kernel_state::{BootFault, Core, Terms, journals_stay_legal};
use native_tas::Natives;
use std::alloc::Global;
use ta_isa::Boot;

/// A core of this boot, where nothing has happened, which keeps its events and whose entries may read 2^28 bytes. Its
/// applications have UUIDs of their own, so want of memory alone can refuse it.
pub fn core_of(alloc: Global, boot: Boot, natives: &Natives) -> Result<Core, NoMemory>
    requires limits { IsWithinLimits boot }
    requires apart { IsApart boot (entries natives.now) }
    ensures booted { IfOk result (λ core. booted_of core ≡ booted boot (entries natives.now)) }
    ensures terms { IfOk result (λ core. terms_of core ≡ kept_terms) }
    ensures events { IfOk result (λ core. events_of core ≡ []) }
    ensures boots { IfOk result (λ core. IsBooted (booted boot (entries natives.now))) }
{
    core_on(alloc, boot, natives, Terms::KEPT)
}

/// The core of [`core_of`] on other terms.
pub fn core_on(alloc: Global, boot: Boot, natives: &Natives, terms: Terms) -> Result<Core, NoMemory>
    requires limits { IsWithinLimits boot }
    requires apart { IsApart boot (entries natives.now) }
    requires bounded { terms.most ≤ 2 ^ 63 }
    ensures booted { IfOk result (λ core. booted_of core ≡ booted boot (entries natives.now)) }
    ensures terms { IfOk result (λ core. terms_of core ≡ terms) }
    ensures events { IfOk result (λ core. events_of core ≡ []) }
    ensures boots { IfOk result (λ core. IsBooted (booted boot (entries natives.now))) }
{
    journals_stay_legal();
    match Core::boot_on(alloc, boot, natives, terms) {
        Ok(core) => Ok(core),
        Err(BootFault::Repeated(_)) => unreachable!(),
        Err(BootFault::Memory) => Err(NoMemory),
    }
}
