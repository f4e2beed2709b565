ghost use Rattle.std.specs.Prelude.{◌≡◌, is_some};
ghost use Rattle.teec.specs.Client.{ends_client, fault_of};

use smc_abi::Regs;
use smc_port::PortRefusal;
use std::error::Error;
use std::fmt;

/// Why a call came to no result. The operation is then as it was.
///
/// After `Retried` the client is as it was, too. Each other fault ends the client: it answers that fault to every later
/// call, and makes no SMC.
#[derive(Clone, Copy, Debug, PartialEq, Eq)]
pub enum TeecFault {
    /// No thread was free, as often as the client tries.
    Retried(u32),
    /// The call had as many RPC returns as the client answers, and one more came.
    Rounds(u32),
    /// The port answered this, which is neither OK nor an RPC return.
    Strange(Regs),
    /// The port had no room for an SMC.
    Spent,
    /// Want of memory.
    Memory,
}

impl TeecFault {
    /// The fault that a port's refusal is.
    pub(crate) fn of_port(refusal: PortRefusal) -> TeecFault
        ensures { result ≡ fault_of refusal }
    {
        match refusal {
            PortRefusal::Spent => TeecFault::Spent,
            PortRefusal::Memory => TeecFault::Memory,
        }
    }

    /// Whether a client that has met it makes no more calls.
    pub(crate) fn ends_client(&self) -> bool
        ensures { result ≡ is_some (ends_client self.now) }
    {
        !matches!(self, TeecFault::Retried(_))
    }
}

impl fmt::Display for TeecFault {
    fn fmt<W: fmt::Write>(&self, f: &mut fmt::Formatter<W>) -> fmt::Result {
        match self {
            TeecFault::Retried(tries) => write!(f, "no thread was free, {tries} times"),
            TeecFault::Rounds(rounds) => write!(f, "more than {rounds} RPC returns"),
            TeecFault::Strange(_) => f.write_str("an answer that is neither OK nor an RPC return"),
            TeecFault::Spent => f.write_str("no room for another SMC"),
            TeecFault::Memory => f.write_str("out of memory"),
        }
    }
}

impl Error for TeecFault {}
