//! Where bytes come from and go to, and what a test may do between the two halves of a call.
//!
//! The traits say what their implementors mean: what a source has left, what a sink holds, and a count
//! of faults that never falls. A failure is answered only where that count rose, and no other answer moves
//! it, so that whoever stands above can tell a fault of the port from one of its own.
//!
//! It touches what is lent to it as a reader or a writer, and no RAM and no thread.
//!
//! # What is proved
//!
//! - `Source` and `Sink` have a meaning, and several calls of theirs come to something together (`laws_of_ports`): a
//!   failure is answered only where the count of faults rose, and any other answer leaves the count, want of memory
//!   among them.
//! - `MemSource` and `MemSink` fail exactly at the calls that they were given.
//! - `StdSource` and `StdSink` end after a bounded number of interruptions, which count as one fault then. After bytes
//!   that didn't fill the buffer a `StdSource` answers at the next call why its reader stopped, and reads nothing; an
//!   empty buffer is End and changes nothing.
//! - No clause speaks of what a flush does, or that an interrupted read, write or flush is tried again: each has a
//!   test.
#![tactic(auto)]

mod fault_plan;
mod interruption;
mod laws;
mod mem_sink;
mod mem_source;
mod pace;
mod sink;
mod source;
mod std_sink;
mod std_source;

pub use interruption::MOST_TRIES;
pub use laws::{laws_of_ports, worked_examples};
pub use mem_sink::MemSink;
pub use mem_source::MemSource;
pub use pace::{NoPace, Pace};
pub use sink::{Put, Sink};
pub use source::{Source, Taken};
pub use std_sink::StdSink;
pub use std_source::{StdSource, Stop};
