//! What an entry decides.
ghost use Rattle.std.specs.Prelude.{◌≡◌, IfOk};
ghost use Rattle.kernel_model.specs.Kernel.{Kernel};
ghost use Rattle.kernel_model.specs.NewCall.{new_call};
ghost use Rattle.kernel_model.specs.Resume.{resume};
ghost use Rattle.kernel_state.specs.Setup.{booted_of_setup};
ghost use Rattle.kernel_state.specs.StandsFor.{StandsFor};
ghost use Rattle.kernel_state.specs.Tables.{HasFreePages, tables_of};
ghost use Rattle.new_calls.specs.Applying.{HaveApps};
ghost use Rattle.resumed_calls.specs.Deciding.{CanDecide};
ghost use Rattle.kernel_entry.specs.Deciding.{ComesTo, HasFound, IsDecided, IsGiven, resumes_as};

use base::NoMemory;
use kernel_state::Parts;
use new_calls::{Entered, Found, Plan, lowest_free, new_call};
use ns_ram::{Lane, Reads};
use resumed_calls::Decided;
use smc_abi::{Answer, Call, ERESUME, Regs, UNKNOWN_FUNCTION, decode_call, fast_answer};
use std::alloc::Global;

/// A new call, and what its slot is taken for.
#[derive(Drop)]
pub struct PlannedCall {
    pub entered: Entered,
    pub plan: Plan,
}

/// What an entry comes to, with all memory that this takes. What a new call has copied stands apart, so that no other entry
/// has room for it.
#[derive(Drop)]
pub enum EntryDecision {
    /// This answer, which takes no slot and changes nothing.
    Answers(Answer),
    /// A new call takes its slot for its plan.
    Begins(Box<PlannedCall>),
    /// The call that the registers name goes on with this.
    GoesOn(Decided),
}

/// What is decided of a call with these registers. All that it reads is listed.
pub(crate) fn decide(
    alloc: Global,
    parts: &Parts,
    regs: &Regs,
    lane: &Lane,
    reads: &mut Reads,
) -> Result<EntryDecision, NoMemory>
    requires call { ∥ CanDecide parts.now.slots regs.now.a ∥₁ }
    requires pages { HasFreePages parts.now.setup parts.now.tables }
    requires apps { HaveApps (booted_of_setup parts.now.setup) (tables_of parts.now.tables) }
    ensures decides { (kernel : Kernel) → StandsFor parts.now kernel
        → IfOk result (IsDecided parts.now kernel regs.now.a lane.now reads.old reads.new) }
    ensures given { IfOk result (IsGiven parts.now regs.now.a lane.now reads.old reads.new) }
    ensures found { IfOk result (HasFound parts.now regs.now.a) }
{
    match decode_call(regs) {
        Call::Fast(call) => {
            let answer = fast_answer(call, regs, parts.setup.threads);
            Ok(EntryDecision::Answers(answer))
        }
        Call::WithArg | Call::WithRpcArg | Call::WithRegdArg => decide_new(
            alloc, parts, regs, lane, reads,
        ),
        Call::Resume => decide_resume(alloc, parts, regs, lane, reads),
        Call::Unknown => Ok(EntryDecision::Answers(code(UNKNOWN_FUNCTION))),
    }
}

/// What is decided of a new call.
#[inline(never)]
fn decide_new(
    alloc: Global,
    parts: &Parts,
    regs: &Regs,
    lane: &Lane,
    reads: &mut Reads,
) -> Result<EntryDecision, NoMemory>
    requires pages { HasFreePages parts.now.setup parts.now.tables }
    requires apps { HaveApps (booted_of_setup parts.now.setup) (tables_of parts.now.tables) }
    ensures decides { (kernel : Kernel) → StandsFor parts.now kernel
        → IfOk result (ComesTo parts.now kernel regs.now.a (new_call (booted_of_setup parts.now.setup) kernel regs.now.a)
        lane.now reads.old reads.new) }
    ensures given { IfOk result (IsGiven parts.now regs.now.a lane.now reads.old reads.new) }
    ensures found { IfOk result (HasFound parts.now regs.now.a) }
{
    let free = lowest_free(&parts.slots);
    let found = Found {
        setup: &parts.setup,
        tables: &parts.tables,
        free,
    };
    let decided = new_call(alloc, &found, regs, lane, reads)?;
    match decided {
        new_calls::Decided::Answers(answer) => Ok(EntryDecision::Answers(answer)),
        new_calls::Decided::Takes(entered, plan) => {
            let call = Box::new(alloc, PlannedCall { entered, plan })?;
            Ok(EntryDecision::Begins(call))
        }
    }
}

/// What is decided of a resume, as a decision of an entry.
#[inline(never)]
fn decide_resume(
    alloc: Global,
    parts: &Parts,
    regs: &Regs,
    lane: &Lane,
    reads: &mut Reads,
) -> Result<EntryDecision, NoMemory>
    requires { ∥ CanDecide parts.now.slots regs.now.a ∥₁ }
    ensures decides { (kernel : Kernel) → StandsFor parts.now kernel
        → IfOk result (ComesTo parts.now kernel regs.now.a (resume (booted_of_setup parts.now.setup) kernel regs.now.a)
        lane.now reads.old reads.new) }
    ensures given { IfOk result (IsGiven parts.now regs.now.a lane.now reads.old reads.new) }
    ensures found { IfOk result (HasFound parts.now regs.now.a) }
{
    let call = resumed_call(alloc, parts, regs, lane, reads)?;
    match call {
        Some(decided) => Ok(EntryDecision::GoesOn(decided)),
        None => Ok(EntryDecision::Answers(code(ERESUME))),
    }
}

/// What is decided of a resume: the call that goes on, with what, if there is one.
#[inline(always)]
pub(crate) fn resumed_call(
    alloc: Global,
    parts: &Parts,
    regs: &Regs,
    lane: &Lane,
    reads: &mut Reads,
) -> Result<Option<Decided>, NoMemory>
    requires { ∥ CanDecide parts.now.slots regs.now.a ∥₁ }
    ensures decides { (kernel : Kernel) → StandsFor parts.now kernel → IfOk result (λ call.
        ComesTo parts.now kernel regs.now.a (resume (booted_of_setup parts.now.setup) kernel regs.now.a)
        lane.now reads.old reads.new (resumes_as call)) }
    ensures given { IfOk result (λ call. IsGiven parts.now regs.now.a lane.now reads.old reads.new (resumes_as call)) }
    ensures found { IfOk result (λ call. HasFound parts.now regs.now.a (resumes_as call)) }
{
    resumed_calls::decide(alloc, &parts.setup, &parts.slots, regs, lane, reads)
}

/// An answer of this code alone.
pub(crate) fn code(code: u32) -> Answer
    ensures { result ≡ Answer.Words code 0 0 0 }
{
    Answer::Words(code, 0, 0, 0)
}
