//! A call that sees that it was cancelled.
ghost use Rattle.std.specs.Prelude.{◌≡◌, ◌-◌, Some, true};
ghost use Rattle.base.specs.NumberMap.{get};
ghost use Rattle.kernel_model.specs.Kernel.{CallPhase as AnyPhase};
ghost use Rattle.kernel_model.specs.Resume.{phase_seen};
ghost use Rattle.kernel_state.specs.Calls.{IsInPhase, bytes_of};
ghost use Rattle.own_model.specs.Solo.{OwnCall as AnyCall, Solo as AnySolo, phase_at, sees};
ghost use Rattle.rpc_cont.specs.Advancing.{CanAdvance};
ghost use Rattle.solo.specs.Calls.{IsCall};
ghost use Rattle.solo.specs.Standing.{IsSomeSolo, StandsFor};

use crate::solo_session::SoloSession;
use crate::stops::run_on;
use rpc_cont::{Cont, Phase};
use ta_step::Plain;

/// It has the flag. One that waits has no machine to tell.
#[tactic(auto, using(crate::proofs::Seen::waiting_flag, crate::proofs::Seen::working_flag))]
fn take_flag(cont: &mut Cont<Plain>)
    ensures phase { (at : AnyPhase) → IsInPhase cont.old at → IsInPhase cont.new (phase_seen at) }
    ensures stays { cont.new ≡ record cont.old { cancelled = true; machine = cont.new.machine } }
{
    match cont.phase {
        Phase::Waits => cont.cancelled = true,
        Phase::Runs | Phase::Asks | Phase::Ends => cont.see_cancel(),
    }
}

/// It sees it after so many steps.
#[tactic(auto, using(crate::proofs::Seen::sees_so))]
pub fn see_cancel(cont: &mut Cont<Plain>, done_by_now: u128)
    requires { cont.old.phase ≡ Phase.Runs → CanAdvance bytes_of cont.old }
    ensures { (call : AnyCall) (at : AnyPhase) → IsCall cont.old call
        → phase_at (done_by_now - call.steps) call.phase ≡ Some at
        → IsCall cont.new (record call { seen = true; steps = done_by_now; phase = phase_seen at }) }
{
    run_on(cont, done_by_now.saturating_sub(cont.steps));
    take_flag(cont);
    cont.steps = done_by_now;
}

impl SoloSession {
    /// The call of this number sees after so many steps that it was cancelled.
    #[tactic(auto, using(crate::proofs::Putting::seen_stands, crate::proofs::Putting::not_found, crate::proofs::Kept::runs_when_kept))]
    pub(crate) fn see(&mut self, number: u32, done_by_now: u128)
        requires { ∥ IsSomeSolo self.old ∥₁ }
        ensures sees { (solo next : AnySolo) (call : AnyCall) → StandsFor self.old solo
            → get solo.calls number ≡ Some call
            → sees solo number done_by_now call ≡ Some next → StandsFor self.new next }
        ensures app { self.new.app ≡ self.old.app }
    {
        let Some(mut call) = self.take(number) else {
            return;
        };
        see_cancel(&mut call, done_by_now);
        self.put(number, call);
    }
}
