//! The pages of what an exit writes.
ghost use Rattle.std.specs.Prelude.{◌≡◌, ℕ, List, Some, length};
ghost use Rattle.exit_pages.specs.Covering.{CoversCarried};
ghost use Rattle.kernel_model.specs.Exit.{Exited};
ghost use Rattle.kernel_model.specs.History.{exit_after};
ghost use Rattle.kernel_state.specs.Leaving.{CanLeave};
ghost use Rattle.kernel_state.specs.Meaning.{booted_of, events_of};
ghost use Rattle.kernel_state.specs.declared.kernel_core.Core.{Core as AnyCore};
ghost use Rattle.ns_ram.specs.Writes.{lane_after};
ghost use Rattle.page_set.specs.Pages.{StaysElsewhere};

use crate::call::mark_call;
use kernel_state::{Carried, Ran};
use page_set::PageSet;

/// The pages of what a processor carries.
fn pages_of_carried(call: &Carried) -> PageSet
    ensures { CoversCarried result call.now }
{
    let mut pages = PageSet::none();
    match call {
        Carried::Nothing => {}
        Carried::Resting(cont) | Carried::Running(cont) => mark_call(&mut pages, cont),
    }
    pages
}

/// The pages that an exit with this work can write to.
pub fn pages_of_exit(ran: &Ran) -> PageSet
    ensures stays { (core : AnyCore) (exited : Exited) (lane : List ℕ) → CanLeave core ran.now → length lane ≡ 0x400000
        → exit_after (booted_of core) (events_of core) ran.now.cpu ≡ Some exited
        → StaysElsewhere result lane (lane_after lane exited.writes) }
    ensures long { (core : AnyCore) (exited : Exited) (lane : List ℕ) → CanLeave core ran.now → length lane ≡ 0x400000
        → exit_after (booted_of core) (events_of core) ran.now.cpu ≡ Some exited
        → length (lane_after lane exited.writes) ≡ 0x400000 }
{
    pages_of_carried(&ran.call)
}
