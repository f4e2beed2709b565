//! Reading a trace.
ghost use Rattle.std.specs.Prelude.{IfOk, IfSome, map};
ghost use Rattle.native_tas.specs.Table.{entries};
ghost use Rattle.ta_isa.specs.Boots.{IsBoot};
ghost use Rattle.trace_text.specs.Grammar.{Spells};
ghost use Rattle.trace_text.specs.Sound.{IsSound};

use anyhow::{Error, Result, bail};
use native_tas::Natives;
use smc_abi::Regs;
use std::alloc::Global;
use trace_text::{Reg, Trace, read_trace};

/// The most bytes that the text of a trace has here.
const MOST_BYTES: usize = 1 << 24;

/// The trace of a text.
#[tactic(auto, using(crate::proofs::Boots::sound_boot))]
pub fn trace_of(alloc: Global, natives: &Natives, text: &[u8]) -> Result<Trace>
    ensures spelled { IfOk result (λ trace. Spells (map (λ native. native.0) (entries natives.now)) text.now trace) }
    ensures sound { IfOk result (IsSound (map (λ native. native.0) (entries natives.now))) }
    ensures boots { IfOk result (λ trace. IfSome trace.boot IsBoot) }
{
    if text.len() > MOST_BYTES {
        bail!("the text is too long");
    }
    Ok(read_trace(alloc, text, natives.uuids().as_slice())?)
}

/// The number that a register of an entry is.
fn number_of(reg: Reg) -> Result<u32> {
    match reg {
        Reg::Num(number) => Ok(number),
        Reg::Last(_) => Err(Error::msg("a register of an earlier answer")),
    }
}

/// The registers that a processor comes in with.
pub fn registers(regs: &[Reg; 8]) -> Result<Regs> {
    let mut a = [0; 8];
    for (number, reg) in a.iter_mut().zip(regs) {
        *number = number_of(*reg)?;
    }
    Ok(Regs { a })
}
