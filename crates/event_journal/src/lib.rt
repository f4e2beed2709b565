//! What happened at the border of the core, event by event, in the order in which it happened.
//!
//! Room for events is reserved ahead, so that what has begun can be written down without memory.
//!
//! It touches no RAM, no port and no thread.
//!
//! # What is proved
//!
//! The journal is a list of events; `push` appends into reserved room; `copied` is the bytes of all reads.
#![tactic(auto)]

mod event;
mod examples;
mod journal;

pub use base::NoMemory;
pub use event::Event;
pub use examples::worked_examples;
pub use journal::Journal;
pub use ns_ram::{Read, Reads};
pub use smc_abi::Regs;
