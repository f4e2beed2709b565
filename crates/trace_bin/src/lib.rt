//! The binary form of traces, for programs that write them: a magic, and records.
//!
//! [`read_binary`] reads all of them, and [`write_binary`] writes the one spelling of a trace. The form is this project's
//! own; `docs/formats.md` states it.
//!
//! It touches no RAM, no port and no thread.
//!
//! # What is proved
//!
//! - `read_binary` answers Ok exactly for the bytes of the grammar of records, each with its trace, or want of memory.
//!   `Bad` has exactly the bytes' first fault, its kind and its place. What is read is within the limits of a trace
//!   (`IsSound`). All bytes spell one trace or have one first fault, and not both (`one_meaning`).
//! - `write_binary` gives one spelling of a trace that is within its limits and has a boot, with a record for a key
//!   that isn't of zeros. Those bytes are spelled as that trace, whatever is built in but has none of its UUIDs
//!   (`written_is_read`).
//!
//! The program reaches `read_binary` alone. Tested outside the gate: a program reads a binary trace with a record of
//! each kind but the key's, which takes no memory, and ends in want of memory whichever one of its allocations is
//! refused.
#![tactic(auto)]

mod body;
mod laws;
mod reading;
mod record_kind;
pub mod records;
mod taking;
mod writing;

pub use base::NoMemory;
pub use laws::{one_meaning, worked_examples, written_is_read};
pub use reading::{MAGIC, read_binary};
pub use writing::write_binary;
