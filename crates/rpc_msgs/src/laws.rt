//! Laws over the definitions of `specs/`, each the contract of a function that does nothing.

ghost use Rattle.std.specs.Prelude.{◌≡◌, ◌≤◌, ℕ, List, length, IsTrue, IsSome, Option, Some};
ghost use Rattle.std.specs.List.{AllByRecursion};
ghost use Rattle.ns_ram.specs.declared.read.Read.{Read};
ghost use Rattle.ns_ram.specs.Reader.{reading};
ghost use Rattle.rpc_msgs.specs.declared.rpc.Rpc.{Rpc};
ghost use Rattle.rpc_msgs.specs.declared.rpc.RpcReply.{RpcReply};
ghost use Rattle.rpc_msgs.specs.Answer.{FitsReply, IsReplyTo};
ghost use Rattle.rpc_msgs.specs.Place.{IsWithinPlaces};
ghost use Rattle.rpc_msgs.specs.Reply.{reply_reader};
ghost use Rattle.rpc_msgs.specs.Request.{IsPayloadOf, has_payload, request_writes};

/// A request is written into its argument's bytes and into its buffer, if it has one, and nowhere else.
pub fn requests_stay_in_their_places()
    ensures { (at : ℕ) (buffer : Option (ℕ × ℕ)) (rpc : Rpc) (payload : List ℕ) → length payload ≤ 3584
        → IsPayloadOf rpc payload → (IsTrue (has_payload rpc) → IsSome buffer)
        → AllByRecursion (IsWithinPlaces at buffer) (request_writes at buffer rpc payload) }
{}

/// Whatever is read of a message, what comes of it is a reply to the request.
pub fn readings_are_replies()
    ensures { (at : ℕ) (buffer : Option ℕ) (rpc : Rpc) (reads : List Read) (reply : RpcReply)
        → reading (reply_reader at buffer rpc) reads ≡ Some reply → IsReplyTo rpc reply }
{}

/// And each reply to a request comes of some reads.
pub fn replies_are_read()
    ensures { (at : ℕ) (buffer : Option ℕ) (rpc : Rpc) (reply : RpcReply) → IsReplyTo rpc reply → FitsReply reply
        → (reads : List Read) × (reading (reply_reader at buffer rpc) reads ≡ Some reply) }
{}
