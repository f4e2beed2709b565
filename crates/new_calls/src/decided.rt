use crate::entered::Entered;
use crate::plan::Plan;
use kernel_state::{Setup, Tables};
use smc_abi::Answer;

/// What a call finds as it comes in, lent to read.
#[derive(Drop)]
pub struct Found<'a> {
    pub setup: &'a Setup,
    pub tables: &'a Tables,
    /// The lowest free slot, if one is free.
    pub free: Option<u8>,
}

/// What is decided of a new call.
#[derive(Drop)]
pub enum Decided {
    /// This answer, which takes no slot and changes nothing.
    Answers(Answer),
    /// Its slot is taken for this.
    Takes(Entered, Plan),
}
