use core_at_work::Visitor;
use kernel_state::EnterRefusal;
use smc_abi::Regs;

/// What a processor does next.
#[derive(Clone, Copy)]
pub enum Smc {
    /// It comes in.
    Comes(Visitor),
    /// The processor of this number goes out.
    Leaves(u8),
}

/// The registers that a processor went out with.
#[derive(Clone, Copy)]
pub struct Told {
    pub cpu: u8,
    pub regs: Regs,
}

/// Why a list was not served to its end, and how much of it was.
#[derive(Clone, Copy)]
pub struct Stopped {
    /// How many of the list have come.
    pub served: usize,
    /// Why the next one has not.
    pub why: EnterRefusal,
}
