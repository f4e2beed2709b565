//! Whether two calls brought the same, or came back with the same.
ghost use Rattle.std.specs.Prelude.{◌≡◌, ◌↔◌, IsTrue};

use crate::same_params::are_same_params;
use own_model::{BackInput, OwnInput};
use rpc_msgs::RpcReply;

/// What came of the parameters of two calls is the same.
pub(crate) fn is_same_input(one: &OwnInput, other: &OwnInput) -> bool
    ensures { IsTrue result ↔ (one.now ≡ other.now) }
{
    match (one, other) {
        (OwnInput::Copied(params), OwnInput::Copied(others)) => are_same_params(params, others),
        (OwnInput::Faulty, OwnInput::Faulty) | (OwnInput::Unread, OwnInput::Unread) => true,
        _ => false,
    }
}

/// Both replies of the normal world are the same.
fn is_same_reply(one: &RpcReply, other: &RpcReply) -> bool
    ensures { IsTrue result ↔ (one.now ≡ other.now) }
{
    one.ret == other.ret
        && one.v == other.v
        && one.w == other.w
        && one.size == other.size
        && one.bytes.bytes() == other.bytes.bytes()
}

/// Two calls came back with the same.
pub(crate) fn is_same_back(one: &BackInput, other: &BackInput) -> bool
    ensures { IsTrue result ↔ (one.now ≡ other.now) }
{
    match (one, other) {
        (BackInput::Reply(reply), BackInput::Reply(others)) => is_same_reply(
            reply.get(),
            others.get(),
        ),
        (BackInput::Nothing, BackInput::Nothing)
        | (BackInput::Buffer, BackInput::Buffer)
        | (BackInput::NoBuffer, BackInput::NoBuffer) => true,
        _ => false,
    }
}
