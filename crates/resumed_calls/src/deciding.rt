//! What a resume decides.
ghost use Rattle.std.specs.Prelude.{◌≡◌, List, IfOk, OnErr};
ghost use Rattle.kernel_model.specs.Kernel.{ThreadSlot};
ghost use Rattle.kernel_state.specs.Setup.{booted_of_setup};
ghost use Rattle.kernel_state.specs.StandsFor.{AreSlots};
ghost use Rattle.kernel_state.specs.declared.cancellation.Cancellation.{Cancellation as AnyCancellation};
ghost use Rattle.rpc_cont.specs.Conts.{uuid_of};
ghost use Rattle.resumed_calls.specs.Deciding.{CanDecide, IsAppIn, IsDecided, IsInSlot};
ghost use Rattle.resumed_calls.specs.Waiting.{IsAppFor};

use crate::finding::{call_resumed_by, slot_named};
use crate::giving::given_to;
use base::NoMemory;
use frame_pool::Pages;
use kernel_state::{Application, Setup};
use ns_ram::{Lane, Reads};
use rpc_cont::{Cont, ContApp, Phase, ResumeInput};
use smc_abi::Regs;
use std::alloc::Global;
use thread_slots::Slots;
use uuid::Uuid;

/// What a resume decides for the call of its slot.
#[derive(Drop)]
pub struct Decided {
    /// The slot.
    pub slot: u8,
    /// What it is given.
    pub given: ResumeInput,
    /// The application of a call that waits for its instance, if the core has that.
    pub app: Option<Application>,
}

/// Decides what a resume with these registers is. None where it is for no call: the answer is ERESUME then. All that it
/// reads is listed, and all memory of a resume is taken here; at want of memory nothing is listed.
#[inline(always)]
pub fn decide(
    alloc: Global,
    setup: &Setup,
    slots: &Slots<Box<Cont<Pages>>>,
    regs: &Regs,
    lane: &Lane,
    reads: &mut Reads,
) -> Result<Option<Decided>, NoMemory>
    requires { ∥ CanDecide slots.now regs.now.a ∥₁ }
    ensures ok { (beside : List AnyCancellation) (held : List ThreadSlot) → AreSlots slots.now beside held → IfOk result (λ decided.
        IsDecided held regs.now.a lane.now reads.old decided reads.new) }
    ensures slot { IfOk result (IsInSlot regs.now.a) }
    ensures app { IfOk result (IsAppIn (booted_of_setup setup.now) slots.now regs.now.a) }
    ensures err { OnErr result (reads.new ≡ reads.old) }
{
    let Some(cont) = call_resumed_by(slots, regs) else {
        return Ok(None);
    };
    let slot = slot_named(slots, regs);
    let app = app_of_waiting(setup, cont)?;
    let given = given_to(alloc, regs, regs.a[3], cont, lane, reads)?;
    Ok(Some(Decided { slot, given, app }))
}

/// The application of a call that waits for its instance, if the core has that.
#[tactic(auto, using(crate::proofs::Decides::app_waited, crate::proofs::Decides::app_unasked, crate::proofs::Decides::app_missing))]
fn app_of_waiting(setup: &Setup, cont: &Cont<Pages>) -> Result<Option<Application>, NoMemory>
    ensures { IfOk result (IsAppFor (booted_of_setup setup.now) cont.now) }
{
    match (cont.phase, &cont.app) {
        (Phase::Waits, Some(app)) => setup.application(&uuid_of(app)),
        (Phase::Waits, None) | (Phase::Runs | Phase::Asks | Phase::Ends, _) => Ok(None),
    }
}

/// The UUID of a call's application.
fn uuid_of(app: &ContApp) -> Uuid
    ensures { result ≡ uuid_of (Some app.now) }
{
    match app {
        ContApp::Image { uuid, .. } | ContApp::Dead { uuid } => *uuid,
        ContApp::Native(native) => native.uuid,
    }
}
