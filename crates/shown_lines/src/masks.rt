//! The calls whose applications have masked their cancellation.

ghost use Rattle.std.specs.Prelude.{◌≡◌, ◌++◌, List, OnOk, Option, Some};
ghost use Rattle.kernel_model.specs.Kernel.{CallPhase, ThreadSlot};
ghost use Rattle.kernel_state.specs.Calls.{IsInPhase, bytes_of};
ghost use Rattle.kernel_state.specs.StandsFor.{AreSlots, IsSlot, IsSlotAt};
ghost use Rattle.kernel_state.specs.declared.cancellation.Cancellation.{Cancellation};
ghost use Rattle.live_play.specs.State.{body_is_masked, masked_line, masked_lines, phase_is_masked, slot_is_masked, text_if};
ghost use Rattle.rpc_cont.specs.Conts.{job_of};

use answer_lines::push_numbered;
use frame_pool::Pages;
use rpc_cont::{Cont, ContApp, Phase};
use std::alloc::AllocError;
use thread_slots::Slot;

/// Whether what runs of a call is a machine that is masked.
fn body_is_masked(cont: &Cont<Pages>) -> bool
    ensures { result ≡ body_is_masked (job_of bytes_of cont.now).body }
{
    match (&cont.app, &cont.point, &cont.machine) {
        (Some(ContApp::Image { .. }), Some(_), Some(machine)) => machine.is_masked(),
        _ => false,
    }
}

/// Whether a call runs or asks that is masked.
fn phase_is_masked(cont: &Cont<Pages>) -> bool
    ensures { (phase : CallPhase) → IsInPhase cont.now phase → result ≡ phase_is_masked phase }
{
    match cont.phase {
        Phase::Runs => body_is_masked(cont),
        Phase::Asks => body_is_masked(cont),
        Phase::Waits | Phase::Ends => false,
    }
}

/// Whether a slot has such a call.
fn slot_is_masked(slot: &Slot<Box<Cont<Pages>>>) -> bool
    ensures { (beside : Cancellation) (held : ThreadSlot) → IsSlot slot.now beside held → result ≡ slot_is_masked held }
{
    match slot {
        Slot::Suspended { cont, .. } => phase_is_masked(cont),
        Slot::Free | Slot::Active { .. } => false,
    }
}

/// Appends the line of a slot that has such a call.
fn push_masked(
    text: &mut Vec<u8>,
    number: usize,
    slot: &Slot<Box<Cont<Pages>>>,
) -> Result<(), AllocError>
    ensures { (beside : Option Cancellation) (held : Option ThreadSlot) → IsSlotAt (Some slot.now) beside held →
        OnOk result (text.new.items ≡ text.old.items ++ text_if (masked_line number) held) }
{
    if !slot_is_masked(slot) {
        return Ok(());
    }
    push_numbered(text, b"masked ", number as u64)?;
    text.push(b'\n')?;
    Ok(())
}

/// Appends a line for each slot that has such a call.
pub(crate) fn push_masks(
    text: &mut Vec<u8>,
    slots: &[Slot<Box<Cont<Pages>>>],
) -> Result<(), AllocError>
    ensures { (besides : List Cancellation) (held : List ThreadSlot) → AreSlots slots.now besides held →
        OnOk result (text.new.items ≡ text.old.items ++ masked_lines held) }
{
    for (number, slot) in slots.iter().enumerate() {
        push_masked(text, number, slot)?;
    }
    Ok(())
}
