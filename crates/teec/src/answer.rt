//! What the answer to an SMC says to a client.

ghost use Rattle.std.specs.Prelude.{◌≡◌};
ghost use Rattle.teec.specs.Answers.{cookie_in, said};

use smc_abi::{ETHREAD_LIMIT, OK, RPC_ALLOC, RPC_CMD, RPC_FREE, RPC_INTERRUPT, Regs};

/// What a core asks for in an RPC return.
#[derive(Clone, Copy)]
pub enum RpcKind {
    /// A buffer for its requests.
    Alloc,
    /// To take the buffer back.
    Free,
    /// To be called again.
    Interrupt,
    /// An answer to the request in the buffer of this cookie.
    Cmd(u64),
}

/// An RPC return, and the thread by which it is answered.
#[derive(Clone, Copy)]
pub struct RpcReturn {
    pub kind: RpcKind,
    pub thread: u32,
}

/// What an answer says.
#[derive(Clone, Copy)]
pub enum Said {
    /// The call has ended.
    Finished,
    /// No thread is free.
    NoThread,
    Returned(RpcReturn),
    /// None of these.
    Unknown,
}

impl Said {
    /// What an answer says. Nothing but its a0 tells.
    pub(crate) fn of(answer: &Regs) -> Said
        ensures { result ≡ said answer.now }
    {
        let kind = match answer.a[0] {
            OK => return Said::Finished,
            ETHREAD_LIMIT => return Said::NoThread,
            RPC_ALLOC => RpcKind::Alloc,
            RPC_FREE => RpcKind::Free,
            RPC_INTERRUPT => RpcKind::Interrupt,
            RPC_CMD => RpcKind::Cmd(cookie_in(answer)),
            _ => return Said::Unknown,
        };
        Said::Returned(RpcReturn {
            kind,
            thread: answer.a[3],
        })
    }
}

/// The cookie in a1 and a2, the upper half first.
fn cookie_in(answer: &Regs) -> u64
    ensures { result ≡ cookie_in answer.now }
{
    u64::from(answer.a[1]) * (1 << 32) + u64::from(answer.a[2])
}
