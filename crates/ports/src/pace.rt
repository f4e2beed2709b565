/// What is done between the entry and the exit of a processor's call. A test holds a processor back by it.
pub trait Pace {
    /// Called once between the entry and the exit of the `n`-th call of processor `cpu`, counted from 1.
    /// It changes nothing that a contract sees.
    fn between(&self, cpu: u8, n: u32);
}

/// Does nothing.
#[derive(Clone, Copy)]
pub struct NoPace;

impl Pace for NoPace {
    fn between(&self, _cpu: u8, _n: u32) {}
}
