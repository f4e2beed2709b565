//! What is noted of a processor that goes out.
ghost use Rattle.std.specs.Prelude.{◌≡◌, ◌<◌, IfOk, Some, slice_get};
ghost use Rattle.std.specs.Option.{option_copied};
ghost use Rattle.journal_notes.specs.Insides.{IsInside};
ghost use Rattle.kernel_state.specs.Meaning.{terms_of};
ghost use Rattle.kernel_state.specs.declared.processor.Errand.TheVariants.{InSlot};
ghost use Rattle.realm_notes.specs.Meaning.{IsExitNoted};
ghost use Rattle.realm_notes.specs.Replaying.{errand_at, left_at};

use crate::leaving::{opened_by, told_at_end};
use crate::notes::Notes;
use base::NoMemory;
use frame_pool::Pages;
use journal_notes::CoreAtWork;
use ns_ram::Lane;
use rpc_cont::Cont;
use std::alloc::Global;
use thread_slots::{Slot, Slots};

/// The call that a slot was left with, if one was.
fn left_in(slots: &Slots<Box<Cont<Pages>>>, slot: u8) -> Option<&Cont<Pages>>
    ensures { option_copied result ≡ left_at (slice_get slots.now slot) }
{
    match slots.as_slice().get(usize::from(slot)) {
        Some(Slot::Suspended { cont, .. }) => Some(cont),
        Some(Slot::Free | Slot::Active { .. }) | None => None,
    }
}

/// A processor goes out from the call of a slot.
pub(crate) fn leave_slot(
    alloc: Global,
    at_work: &mut CoreAtWork,
    slot: u8,
    cpu: u8,
    lane: &mut Lane,
    notes: &mut Notes,
) -> Result<(), NoMemory>
    requires slot { slot < 16 }
    requires inside { IsInside at_work.old.core cpu }
    requires errand { errand_at (slice_get at_work.old.core.parts.processors.items cpu) ≡ Some (InSlot slot) }
    ensures noted { IfOk result (λ _. IsExitNoted at_work.old.core at_work.new.core notes.old notes.new cpu lane.old lane.new) }
    ensures terms { terms_of at_work.new.core ≡ terms_of at_work.old.core }
    ensures realm { notes.new.realm ≡ notes.old.realm }
{
    let Some(number) = notes.number_in(slot) else {
        at_work.leave(cpu, lane);
        return Ok(());
    };
    let call = &at_work.outgoing(cpu).call;
    let opened = notes.opened_as(opened_by(call));
    let told = told_at_end(alloc, call, opened)?;
    at_work.leave(cpu, lane);
    match (left_in(&at_work.core.parts.slots, slot), told) {
        (Some(cont), _) => notes.suspend(alloc, slot, number, cont),
        (None, Some(told)) => notes.finish(alloc, slot, number, told),
        (None, None) => unreachable!(),
    }
}
