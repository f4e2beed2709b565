//! What the end of a call makes of its session.
ghost use Rattle.std.specs.Prelude.{◌≡◌, IsSome};
ghost use Rattle.base.specs.NumberMap.{get};
ghost use Rattle.kernel_model.specs.Sessions.{has_opened, sessions_after, sessions_after_panic, sessions_unrun};
ghost use Rattle.kernel_exit.specs.Ending.{HasItsSession};

use job_model::CallKind;
use session_table::Sessions;
use ta_params::codes::TEE_SUCCESS;

/// After a call of this kind on this session has ended with a result: an open that succeeds opens it with the context, one that fails
/// and a close take it away.
pub(crate) fn sessions_after(
    sessions: &mut Sessions,
    kind: CallKind,
    number: u32,
    code: u32,
    context: u32,
)
    requires { HasItsSession kind sessions.old.kept number }
    ensures { sessions.new ≡ record sessions.old { kept = sessions_after kind sessions.old.kept number code context } }
{
    match kind {
        CallKind::Open => {
            if code == TEE_SUCCESS {
                sessions.settle(number, context);
            } else {
                sessions.remove(number);
            }
        }
        CallKind::Close => sessions.remove(number),
        CallKind::Invoke { .. } | CallKind::Settled => {}
    }
}

/// After it has panicked: an open leaves no session, and a close takes its session away.
pub(crate) fn sessions_after_panic(sessions: &mut Sessions, kind: CallKind, number: u32)
    requires { HasItsSession kind sessions.old.kept number }
    ensures { sessions.new ≡ record sessions.old { kept = sessions_after_panic kind sessions.old.kept number } }
{
    match kind {
        CallKind::Open | CallKind::Close => sessions.remove(number),
        CallKind::Invoke { .. } | CallKind::Settled => {}
    }
}

/// After it has ended without having run: an open leaves no session, and a close keeps its own.
pub(crate) fn sessions_unrun(sessions: &mut Sessions, kind: CallKind, number: u32)
    requires { kind ≡ CallKind.Open → IsSome (get sessions.old.kept number) }
    ensures { sessions.new ≡ record sessions.old { kept = sessions_unrun kind sessions.old.kept number } }
{
    match kind {
        CallKind::Open => sessions.remove(number),
        CallKind::Invoke { .. } | CallKind::Close | CallKind::Settled => {}
    }
}

/// Whether one of the instance's sessions is opened.
#[tactic(auto, using(crate::proofs::Maps::any_counted))]
pub(crate) fn has_opened(sessions: &Sessions, instance: u32) -> bool
    ensures { result ≡ has_opened sessions.now.kept instance }
{
    sessions.users(instance).opened > 0
}
