//! Laws over the definitions of `specs/`, each the contract of a function that does nothing.

ghost use Rattle.std.specs.Prelude.{◌≡◌, ◌<◌, ◌^◌, ℕ, List, length, Some};
ghost use Rattle.ns_ram.specs.Lane.{IsInRam, bytes_at};
ghost use Rattle.ns_ram.specs.Reader.{outcome_over};
ghost use Rattle.ns_ram.specs.Writes.{lane_after};
ghost use Rattle.rpc_msgs.specs.declared.rpc.Rpc.{Rpc};
ghost use Rattle.rpc_msgs.specs.declared.rpc.RpcReply.{RpcReply};
ghost use Rattle.rpc_msgs.specs.Answer.{FitsReply, IsReplyTo};
ghost use Rattle.rpc_msgs.specs.Reply.{reply_reader};
ghost use Rattle.rpc_msgs.specs.Request.{IsPayloadOf, IsRequest, request_writes};
ghost use Rattle.supplicant.specs.Answering.{reply_writes};
ghost use Rattle.supplicant.specs.Holding.{Holds, IsValue};

/// A message in which a request was written holds that request, with its payload.
pub fn requests_are_held()
    ensures { (lane : List ℕ) (buffer cookie : ℕ) (rpc : Rpc) (payload : List ℕ) → length lane ≡ 0x400000
        → IsInRam buffer 4096 → IsValue rpc → IsRequest rpc → IsPayloadOf rpc payload
        → Holds (bytes_at (lane_after lane (request_writes buffer (Some (buffer, cookie)) rpc payload)) buffer 4096) buffer cookie rpc payload }
{}

/// What is read of a reply that was written is that reply.
pub fn replies_are_read()
    ensures { (lane : List ℕ) (buffer : ℕ) (rpc : Rpc) (reply : RpcReply) → length lane ≡ 0x400000
        → IsInRam buffer 4096 → IsRequest rpc → IsReplyTo rpc reply → FitsReply reply
        → outcome_over (reply_reader buffer (Some buffer) rpc) (lane_after lane (reply_writes buffer rpc reply)) ≡ Some reply }
{}
