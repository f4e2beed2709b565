//! What a port does at its SMCs.

ghost use Rattle.std.specs.Prelude.{length};
ghost use Rattle.ns_ram.specs.Lane.{IsInRam};

use anyhow::Result;
use base::Sequence;
use smc_abi::Regs;
use smc_port::{RamWrite, Turn};
use std::alloc::Global;

/// The first register of an answer that is OK.
pub(crate) const OK: u32 = 0;

/// Registers that say no more than this.
pub(crate) fn first(a0: u32) -> Regs {
    Regs {
        a: [a0, 0, 0, 0, 0, 0, 0, 0],
    }
}

/// Writes nothing, and answers this.
pub(crate) fn answering(alloc: Global, a0: u32) -> Turn {
    Turn {
        answer: first(a0),
        writes: Sequence::of(Vec::new(alloc)),
    }
}

/// These bytes, to this address.
pub(crate) fn write(alloc: Global, addr: u64, from: &[u8]) -> Result<RamWrite>
    requires { IsInRam addr (length from.now) }
{
    let mut bytes = Vec::new(alloc);
    bytes.extend_from_slice(from)?;
    Ok(RamWrite::new(addr, bytes))
}
