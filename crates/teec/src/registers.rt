//! The registers of the SMCs that a client makes, as client 0.

ghost use Rattle.std.specs.Prelude.{◌≡◌, ◌<◌, ◌^◌};
ghost use Rattle.teec.specs.Answers.{call_with_arg, return_from_rpc};

use crate::answer::{RpcKind, RpcReturn};
use crate::places::{MESSAGE_AT, MESSAGE_COOKIE};
use smc_abi::{CALL_WITH_ARG, RETURN_FROM_RPC, Regs};

/// A call of the argument at an address.
pub(crate) fn call_with_arg(arg: u64) -> Regs
    requires { arg < 2 ^ 32 }
    ensures { result ≡ call_with_arg arg }
{
    Regs {
        a: [CALL_WITH_ARG, 0, arg as u32, 0, 0, 0, 0, 0],
    }
}

/// What answers an RPC return. One that asks for a buffer is given the client's one buffer, however many bytes it asked
/// for.
pub(crate) fn return_from_rpc(rpc: &RpcReturn) -> Regs
    ensures { result ≡ return_from_rpc rpc.now }
{
    let (buffer, cookie) = match rpc.kind {
        RpcKind::Alloc => (MESSAGE_AT as u32, MESSAGE_COOKIE as u32),
        RpcKind::Free | RpcKind::Interrupt | RpcKind::Cmd(_) => (0, 0),
    };
    Regs {
        a: [RETURN_FROM_RPC, 0, buffer, rpc.thread, 0, cookie, 0, 0],
    }
}
