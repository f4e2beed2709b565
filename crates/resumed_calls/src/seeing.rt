//! What a call that is resumed sees and gets before it goes on.
ghost use Rattle.std.specs.Prelude.{◌≡◌};
ghost use Rattle.kernel_model.specs.Given.{call_given};
ghost use Rattle.kernel_model.specs.Kernel.{PendingCall};
ghost use Rattle.kernel_model.specs.Resume.{sees};
ghost use Rattle.kernel_state.specs.Calls.{IsCall};
ghost use Rattle.resumed_calls.specs.Giving.{given_as};

use frame_pool::Pages;
use rpc_cont::{Cont, Phase, ResumeInput};
use rpc_msgs::RpcBuffer;

/// A call that was cancelled sees it. One that waits has no machine to tell.
#[tactic(auto, using(crate::proofs::Seen::sees_nothing, crate::proofs::Seen::waiting_sees, crate::proofs::Seen::working_sees))]
pub(crate) fn see_mark(cont: &mut Cont<Pages>, marked: bool)
    ensures call { (call : PendingCall) → IsCall cont.old call → call.marked ≡ marked → IsCall cont.new (sees call) }
    ensures stays { cont.new ≡ record cont.old { cancelled = cont.new.cancelled; machine = cont.new.machine } }
{
    if !marked {
        return;
    }
    match cont.phase {
        Phase::Waits => cont.cancelled = true,
        Phase::Runs | Phase::Asks | Phase::Ends => cont.see_cancel(),
    }
}

/// The call has the buffer that it is given, if it is given one.
#[tactic(auto, using(crate::proofs::Seen::given_buffer))]
pub(crate) fn call_given(cont: &mut Cont<Pages>, given: &ResumeInput)
    ensures call { (call : PendingCall) → IsCall cont.old call → IsCall cont.new (call_given (given_as given.now) call) }
    ensures stays { cont.new ≡ record cont.old { buffer = cont.new.buffer } }
{
    match given {
        ResumeInput::Buffer { addr, cookie } => {
            cont.buffer = Some(RpcBuffer {
                addr: *addr,
                cookie: *cookie,
            });
        }
        ResumeInput::Nothing | ResumeInput::NoBuffer | ResumeInput::Reply(_) => {}
    }
}
