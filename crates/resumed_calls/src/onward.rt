//! How a call goes on that doesn't wait for its instance.
ghost use Rattle.std.specs.Prelude.{◌≡◌, ◌≢◌};
ghost use Rattle.kernel_model.specs.Resume.{Resumed, onward_of};
ghost use Rattle.kernel_state.specs.Calls.{IsCall, bytes_of};
ghost use Rattle.rpc_cont.specs.Answering.{CanBeAnswered};
ghost use Rattle.resumed_calls.specs.Giving.{given_as};
ghost use Rattle.resumed_calls.specs.Onward.{HasCome};

use frame_pool::Pages;
use rpc_cont::{Cont, Phase, ResumeInput};

/// Goes on by its phase: with its reply, or without a buffer, its application goes on that has asked, and a call that
/// has ended wakes nobody more. Nothing else changes it.
#[tactic(auto, using(crate::proofs::Goes::unchanged_onward, crate::proofs::Goes::answered_onward))]
pub(crate) fn go_on(cont: &mut Cont<Pages>, given: ResumeInput)
    requires phase { cont.old.phase ≢ Phase.Waits }
    requires asked { cont.old.phase ≡ Phase.Asks → CanBeAnswered bytes_of cont.old }
    ensures { (r : Resumed) → r.given ≡ given_as given → IsCall cont.old r.call → HasCome r.tables cont.new (onward_of r) }
{
    match &given {
        ResumeInput::Nothing | ResumeInput::Buffer { .. } => {}
        ResumeInput::NoBuffer | ResumeInput::Reply(_) => cont.resume_with(given),
    }
}
