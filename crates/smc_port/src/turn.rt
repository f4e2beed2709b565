use crate::ram_write::RamWrite;
use base::Sequence;
use smc_abi::Regs;

/// What a port that answers by a list does at one SMC.
#[derive(Drop)]
pub struct Turn {
    /// The registers after it.
    pub answer: Regs,
    /// What is written to RAM before, each write over the ones before it.
    pub writes: Sequence<RamWrite>,
}
