//! The thread slots.

ghost use Rattle.std.specs.Prelude.{◌≡◌, ◌++◌, List, OnOk, Option, Some, slice_get};
ghost use Rattle.kernel_model.specs.Kernel.{ThreadSlot};
ghost use Rattle.kernel_state.specs.StandsFor.{AreSlots, IsSlot, IsSlotAt};
ghost use Rattle.live_play.specs.State.{slot_line, slot_lines, slot_text, text_if};

use crate::calls::push_call;
use answer_lines::push_numbered;
use frame_pool::Pages;
use kernel_state::Cancellation;
use rpc_cont::Cont;
use std::alloc::{AllocError, Global};
use thread_slots::Slot;

/// Appends what is told of a slot.
fn push_held(
    alloc: Global,
    text: &mut Vec<u8>,
    slot: &Slot<Box<Cont<Pages>>>,
    beside: &Cancellation,
) -> Result<(), AllocError>
    ensures { (held : ThreadSlot) → IsSlot slot.now beside.now held →
        OnOk result (text.new.items ≡ text.old.items ++ slot_text held) }
{
    match slot {
        Slot::Free => text.extend_from_slice(b"free"),
        Slot::Active { cpu } => push_numbered(text, b"active ", u64::from(*cpu)),
        Slot::Suspended { client, cont } => push_call(alloc, text, *client, cont, beside),
    }
}

/// Appends the line of a slot.
fn push_slot(
    alloc: Global,
    text: &mut Vec<u8>,
    number: usize,
    slot: &Slot<Box<Cont<Pages>>>,
    beside: &Cancellation,
) -> Result<(), AllocError>
    ensures { (held : ThreadSlot) → IsSlot slot.now beside.now held →
        OnOk result (text.new.items ≡ text.old.items ++ slot_line number held) }
{
    push_numbered(text, b"slot ", number as u64)?;
    text.push(b' ')?;
    push_held(alloc, text, slot, beside)?;
    text.push(b'\n')?;
    Ok(())
}

/// Appends the line of the slot of this number.
fn push_slot_at(
    alloc: Global,
    text: &mut Vec<u8>,
    number: usize,
    slot: &Slot<Box<Cont<Pages>>>,
    besides: &[Cancellation],
) -> Result<(), AllocError>
    ensures { (held : Option ThreadSlot) → IsSlotAt (Some slot.now) (slice_get besides.now number) held →
        OnOk result (text.new.items ≡ text.old.items ++ text_if (slot_line number) held) }
{
    match besides.get(number) {
        Some(beside) => push_slot(alloc, text, number, slot, beside),
        None => Ok(()),
    }
}

/// Appends the lines of all slots, given what stands beside each.
pub(crate) fn push_slots(
    alloc: Global,
    text: &mut Vec<u8>,
    slots: &[Slot<Box<Cont<Pages>>>],
    besides: &[Cancellation],
) -> Result<(), AllocError>
    ensures { (held : List ThreadSlot) → AreSlots slots.now besides.now held →
        OnOk result (text.new.items ≡ text.old.items ++ slot_lines held) }
{
    for (number, slot) in slots.iter().enumerate() {
        push_slot_at(alloc, text, number, slot, besides)?;
    }
    Ok(())
}
