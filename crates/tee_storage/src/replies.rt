ghost use Rattle.std.specs.Prelude.{◌≡◌};
ghost use Rattle.tee_storage.specs.Replies.{brings_piece as brings, is_whole as whole};

use rpc_msgs::RpcReply;
use ta_params::codes::*;

/// Whether a reply brings as many bytes as were asked for.
pub(crate) fn is_whole(reply: &RpcReply, len: u32) -> bool
    ensures { result ≡ whole reply.now len }
{
    reply.size == u64::from(len) && reply.bytes.bytes().len() == len as usize
}

/// The same, and tells of no failure.
pub(crate) fn brings_piece(reply: &RpcReply, len: u32) -> bool
    ensures { result ≡ brings reply.now len }
{
    reply.ret == TEE_SUCCESS && is_whole(reply, len)
}
