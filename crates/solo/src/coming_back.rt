//! Calls that come back.
ghost use Rattle.std.specs.Prelude.{◌≡◌, ◌≢◌, ◌&&◌, ◌||◌, ℕ, [], None, OnErr, OnOk, Some, false, not};
ghost use Rattle.base.specs.NumberMap.{get};
ghost use Rattle.begin_call.specs.Begins.{CanBegin, IsValidApp};
ghost use Rattle.job_model.specs.Job.{of_tee};
ghost use Rattle.job_model.specs.Point.{no_params};
ghost use Rattle.kernel_model.specs.Application.{Application as AnyApplication};
ghost use Rattle.kernel_model.specs.Kernel.{Ends, Instance as AnyInstance, Waits};
ghost use Rattle.kernel_model.specs.Resume.{is_close};
ghost use Rattle.kernel_state.specs.Calls.{bytes_of};
ghost use Rattle.kernel_state.specs.Setup.{application_of};
ghost use Rattle.own_model.specs.InOrder.{Fits, IsInOrder};
ghost use Rattle.own_model.specs.Solo.{OwnCall as AnyCall, OwnSession as AnySession, Solo as AnySolo, Waiting as AnyWaiting, comes_back, comes_back_in, gives_up, goes_on, home, is_buffer, is_no_buffer, retests, waits_on};
ghost use Rattle.rpc_cont.specs.Answering.{CanBeAnswered};
ghost use Rattle.solo.specs.Calls.{IsCall};
ghost use Rattle.solo.specs.Standing.{ComesTo, HasCall, IsBeside, IsSomeSolo, StandsFor, app_in};
ghost use Rattle.ta_params.specs.declared.copied_params.CopiedParams.{CopiedParams as AnyParams};

use crate::beginning::Ready;
use crate::found::Found;
use crate::solo_session::SoloSession;
use base::NoMemory;
use job_model::CallKind;
use own_model::BackInput;
use rpc_cont::{Cont, Phase, ResumeInput, RpcBuffer};
use std::alloc::Global;
use ta_params::CallResult;
use ta_params::codes::{TEE_ERROR_BAD_PARAMETERS, TEE_ERROR_OUT_OF_MEMORY, TEE_ERROR_TARGET_DEAD};
use ta_step::Plain;

/// The buffer of a call, whose place nothing shows.
const SOME_BUFFER: RpcBuffer = RpcBuffer { addr: 0, cookie: 0 };

/// The call is a close.
pub fn is_close(kind: CallKind) -> bool
    ensures { result ≡ is_close kind }
{
    matches!(kind, CallKind::Close)
}

/// Its instance is dead, and it is no close.
fn is_lost(found: Found, kind: CallKind) -> bool
    ensures { result ≡ (found.dead && not (is_close kind)) }
{
    found.dead && !is_close(kind)
}

/// It wanted a buffer and was given none.
pub fn is_no_buffer(input: &BackInput) -> bool
    ensures { result ≡ is_no_buffer input.now }
{
    matches!(input, BackInput::NoBuffer)
}

/// The call has a buffer from now on where it is given one.
#[tactic(auto, using(crate::proofs::Back::has_buffer))]
pub fn take_buffer(cont: &mut Cont<Plain>, input: &BackInput)
    ensures call { (call : AnyCall) → IsCall cont.old call
        → IsCall cont.new (record call { buffer = is_buffer input.now || call.buffer }) }
    ensures stays { cont.new ≡ record cont.old { buffer = cont.new.buffer } }
{
    match input {
        BackInput::Buffer => cont.buffer = Some(SOME_BUFFER),
        BackInput::Nothing | BackInput::NoBuffer | BackInput::Reply(_) => {}
    }
}

/// A call goes on that doesn't wait for the instance: with its reply, or without a buffer, its application goes on that
/// has asked, and a call that has ended wakes nobody more.
pub fn take_answer(cont: &mut Cont<Plain>, input: &BackInput)
    requires phase { cont.old.phase ≢ Phase.Waits }
    requires asked { cont.old.phase ≡ Phase.Asks → CanBeAnswered bytes_of cont.old }
    ensures { (app : AnyApplication) (solo next : AnySolo) (number : ℕ) (call : AnyCall) → IsCall cont.old call
        → comes_back_in app solo number call input.now call.phase ≡ Some next → HasCall cont.new number solo next }
{
    match input {
        BackInput::Nothing | BackInput::Buffer => {}
        BackInput::NoBuffer => cont.resume_with(ResumeInput::NoBuffer),
        BackInput::Reply(reply) => cont.resume_with_reply(reply.get()),
    }
}

/// A call that has waited has this result, which no application returned.
#[tactic(auto, using(crate::proofs::Back::ended_so))]
pub fn end_with(cont: &mut Cont<Plain>, code: u32)
    requires { CanBegin cont.old }
    ensures { (call : AnyCall) → IsCall cont.old call
        → IsCall cont.new (record call { phase = Ends (of_tee code) no_params false None }) }
{
    cont.phase = Phase::Ends;
    cont.result = CallResult::of_tee(code);
    cont.params = None;
    cont.request = None;
    cont.done = false;
}

impl SoloSession {
    /// A call that has waited gives up with this result.
    fn give_up(&mut self, number: u32, cont: &mut Cont<Plain>, code: u32)
        requires { CanBegin cont.old }
        ensures gives_up { (solo : AnySolo) (call : AnyCall) → IsBeside self.old solo → IsCall cont.old call
            → ComesTo self.new cont.new number solo (gives_up solo number call code) }
        ensures app { self.new.app ≡ self.old.app }
        ensures calls { self.new.calls ≡ self.old.calls }
    {
        self.leave_line(number);
        end_with(cont, code);
    }

    /// Another call holds the instance: it waits on, where it has got a buffer for that or has one.
    fn wait_on(&mut self, number: u32, cont: &mut Cont<Plain>, input: &BackInput)
        requires { CanBegin cont.old }
        ensures waits { (solo : AnySolo) (call : AnyCall) (params : AnyParams) → IsBeside self.old solo
            → IsCall cont.old call
            → ComesTo self.new cont.new number solo
            (waits_on solo (record { number = number; call = call; params = params; input = input.now })) }
        ensures app { self.new.app ≡ self.old.app }
        ensures calls { self.new.calls ≡ self.old.calls }
    {
        if is_no_buffer(input) {
            self.give_up(number, cont, TEE_ERROR_OUT_OF_MEMORY);
        }
    }

    /// It waits no more, and begins.
    fn go_on(&mut self, number: u32, cont: &mut Cont<Plain>, ready: Ready)
        requires valid { IsValidApp (app_in self.old) }
        requires app { application_of ready.app ≡ app_in self.old }
        requires empty { ready.empty ≡ [] }
        requires fresh { CanBegin cont.old }
        ensures goes_on { (solo : AnySolo) (w : AnyWaiting) (at : AnySession × AnyInstance) → IsBeside self.old solo
            → IsCall cont.old w.call → w.call.phase ≡ Waits w.params → w.number ≡ number
            → w.call.kind ≢ CallKind.Settled
            → home solo ≡ Some at → ComesTo self.new cont.new number solo (goes_on (app_in self.old) solo w at) }
        ensures app { self.new.app ≡ self.old.app }
        ensures calls { self.new.calls ≡ self.old.calls }
    {
        self.leave_line(number);
        self.begin(number, cont, ready);
    }

    /// A call that waits is tested again: its session may be gone, its instance dead, or held.
    fn retest(&mut self, number: u32, cont: &mut Cont<Plain>, input: &BackInput, ready: Ready)
        requires valid { IsValidApp (app_in self.old) }
        requires app { application_of ready.app ≡ app_in self.old }
        requires empty { ready.empty ≡ [] }
        requires fresh { CanBegin cont.old }
        ensures retests { (solo : AnySolo) (w : AnyWaiting) → IsBeside self.old solo → IsCall cont.old w.call
            → w.call.phase ≡ Waits w.params → w.number ≡ number → w.input ≡ input.now → w.call.kind ≢ CallKind.Settled
            → ComesTo self.new cont.new number solo (retests (app_in self.old) solo w) }
        ensures app { self.new.app ≡ self.old.app }
        ensures calls { self.new.calls ≡ self.old.calls }
    {
        match self.home() {
            None => self.give_up(number, cont, TEE_ERROR_BAD_PARAMETERS),
            Some(found) => {
                let lost = is_lost(found, cont.kind);
                if lost {
                    self.give_up(number, cont, TEE_ERROR_TARGET_DEAD);
                } else if found.held {
                    self.wait_on(number, cont, input);
                } else {
                    self.go_on(number, cont, ready);
                }
            }
        }
    }

    /// By its phase.
    fn come_back_in(&mut self, number: u32, cont: &mut Cont<Plain>, input: &BackInput, ready: Ready)
        requires valid { IsValidApp (app_in self.old) }
        requires app { application_of ready.app ≡ app_in self.old }
        requires empty { ready.empty ≡ [] }
        requires waits { cont.old.phase ≡ Phase.Waits → CanBegin cont.old }
        requires asked { cont.old.phase ≡ Phase.Asks → CanBeAnswered bytes_of cont.old }
        ensures comes { (solo next : AnySolo) (call : AnyCall) → IsBeside self.old solo → IsCall cont.old call
            → Fits call.kind call.phase
            → comes_back_in (app_in self.old) solo number call input.now call.phase ≡ Some next
            → ComesTo self.new cont.new number solo next }
        ensures app { self.new.app ≡ self.old.app }
        ensures calls { self.new.calls ≡ self.old.calls }
    {
        match cont.phase {
            Phase::Waits => self.retest(number, cont, input, ready),
            Phase::Runs | Phase::Asks | Phase::Ends => take_answer(cont, input),
        }
    }

    /// The call of this number comes back with this.
    pub(crate) fn come_back(
        &mut self,
        alloc: Global,
        number: u32,
        input: &BackInput,
    ) -> Result<(), NoMemory>
        requires { ∥ IsSomeSolo self.old ∥₁ }
        ensures ok { (solo next : AnySolo) (call : AnyCall) → StandsFor self.old solo → IsInOrder solo
            → get solo.calls number ≡ Some call → comes_back (app_in self.old) solo number input.now call ≡ Some next
            → OnOk result (StandsFor self.new next) }
        ensures err { (solo : AnySolo) → StandsFor self.old solo → OnErr result (StandsFor self.new solo) }
        ensures app { self.new.app ≡ self.old.app }
    {
        let ready = self.ready(alloc)?;
        let Some(mut call) = self.take(number) else {
            return Ok(());
        };
        take_buffer(&mut call, input);
        self.come_back_in(number, &mut call, input, ready);
        self.put(number, call);
        Ok(())
    }
}
