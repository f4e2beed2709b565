//! Where the lines of a conversation come from, and where what is said to them goes.
//!
//! [`Port`] is both at once, since its meaning is one history: what was heard and what was said, in the order in which it
//! happened. No clause says which line comes, so it may depend in any way on all that was said before it: what is proved over
//! any port is proved for every other side.
//!
//! [`StdPort`] is a port over a reader and a writer, the edge to the outside. [`MemPort`] is one in memory, over any code that
//! chooses its next line by the last answer.
//!
//! It touches what is lent to it as a reader and a writer, and no RAM and no thread.
//!
//! # What is proved
//!
//! - `Port` means one history (`laws_of_ports`), to which a line that is heard and bytes that are said are added in
//!   their order, after a fault of writing a part from the front of these. Where it tells them, it has what is left to be
//!   heard, at whose front a line that is heard stood, and what was written, at whose end what is said stands (`Happens`).
//! - It has an end, which the end of the input, a fault of reading, one of writing or want of memory brings, each by its
//!   name, and nothing else. Of what is left it costs at most a part of a line (`Closes`). No call may be made behind it.
//! - A fault of either is counted in the call that answers it, and no other call moves the counts (`faults_behind`).
//! - `StdPort` over a reader and a writer that tell what they have: `hear` takes a line of at most 8,388,736 bytes and
//!   its line feed, or all of a longer one, or what stands before the end of the input, as it says. It reads nothing
//!   while a whole line is pending, and writes nothing. `say` adds the bytes, and reads nothing.
//! - `MemPort` tells its history.
//! - No clause says which calls of a `MemPort` fail, what its other side is told, or what a flush does. Nor does one
//!   say that a `StdPort` waits for no more than the line that it hears, that what it counts as a fault was one of its
//!   reader or its writer, or a line of 2^64 - 1 parts, or that a read is tried again where it was interrupted: `parts` has six
//!   readers for these.
#![tactic(auto)]

mod faults;
mod finish;
mod gathering;
mod laws;
mod line_reader;
mod mem_port;
mod port;
mod std_port;

pub use faults::Faults;
pub use finish::Finish;
pub use gathering::LONGEST_LINE;
pub use laws::{laws_of_ports, worked_examples};
pub use mem_port::{Entry, Listed, MemPort, Next, OtherSide};
pub use port::{Heard, Port, Said};
pub use std_port::StdPort;
