//! The request that a message holds.

ghost use Rattle.std.specs.Prelude.{◌≡◌, ◌↔◌, List, ℕ, length, IfSome, IsTrue, Some};
ghost use Rattle.ns_ram.specs.Lane.{IsInRam, bytes_at};
ghost use Rattle.rpc_msgs.specs.declared.rpc.Rpc.{Rpc as AnyRpc};
ghost use Rattle.supplicant.specs.Holding.{Holds, HoldsBytes};

use crate::candidate::candidate;
use msg_args::write_arg;
use rpc_msgs::{PAYLOAD_OFFSET, Payload, Rpc, request_arg};
use smc_port::World;

/// A request with its payload: the name's bytes of one that names a file, the bytes of a write, and else none.
#[derive(Drop)]
pub struct Request {
    pub rpc: Rpc,
    pub payload: Payload,
}

/// Reads the request that the message of 4096 bytes at `buffer` holds, which the world knows by `cookie`; None where
/// it holds none.
pub fn read_request<W: World>(world: &W, buffer: u64, cookie: u64) -> Option<Request>
    requires { IsInRam buffer 4096 }
    ensures found { IfSome result (λ found. Holds (bytes_at (W.ram world.now) buffer 4096) buffer cookie found.rpc found.payload) }
    ensures only { (rpc : AnyRpc) (payload : List ℕ) → Holds (bytes_at (W.ram world.now) buffer 4096) buffer cookie rpc payload
        → result ≡ Some (record { rpc = rpc; payload = payload }) }
{
    let mut message = [0; 4096];
    world.peek(buffer, &mut message);
    request_in(&message, buffer, cookie)
}

/// The request that a message holds.
pub(crate) fn request_in(message: &[u8], buffer: u64, cookie: u64) -> Option<Request>
    requires whole { length message.now ≡ 4096 }
    requires in_ram { IsInRam buffer 4096 }
    ensures found { IfSome result (λ found. Holds message.now buffer cookie found.rpc found.payload) }
    ensures only { (rpc : AnyRpc) (payload : List ℕ) → Holds message.now buffer cookie rpc payload
        → result ≡ Some (record { rpc = rpc; payload = payload }) }
{
    let request = candidate(message)?;
    if is_held(message, buffer, cookie, &request) {
        Some(request)
    } else {
        None
    }
}

/// Whether a message has the bytes that are written for a request.
fn is_held(message: &[u8], buffer: u64, cookie: u64, request: &Request) -> bool
    requires whole { length message.now ≡ 4096 }
    requires in_ram { IsInRam buffer 4096 }
    ensures { IsTrue result ↔ HoldsBytes message.now buffer cookie request.now.rpc request.now.payload }
{
    let arg = write_arg(&request_arg(buffer, cookie, &request.rpc));
    message.starts_with(arg.as_slice())
        && message[PAYLOAD_OFFSET as usize..].starts_with(request.payload.bytes())
}
