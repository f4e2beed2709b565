//! The lines of what a conversation shows beside the answers of its items, as bytes.
//!
//! [`push_told`] appends what a core is asked for: its slots, processors and tables, a session, a registered buffer, or
//! events. [`push_changes`] appends what an exit has changed in RAM, and [`push_panic`] the panic in which its call has
//! ended. At `Err` there was no memory, and a part of what was to come may stand at the text's end, behind all that the
//! text had. The definitions of the lines are those of `live_play`.
//!
//! It reads the bytes of RAM that it is lent, and touches no port and no thread.
//!
//! # What is proved
//!
//! - `push_told` appends what the definitions of `live_play` give as the answer of a core to a question, of the kernel
//!   that its events come to and of its history: its slots and which calls are masked, who is inside, its instances and
//!   counts, a session, a registered buffer, or, of a core that keeps them (`CanTell`), events.
//! - `push_changes` appends a line for each block of 64 bytes of RAM that isn't what it was. It looks at the pages alone
//!   of which it was kept what they were, outside of which nothing has changed.
//! - `push_panic` appends the line of a panic, where there is one.
#![tactic(auto)]

mod buffers;
mod calls;
mod changes;
mod digits;
mod events;
mod instances;
mod masks;
mod panics;
mod processors;
mod shown;
mod slots;

pub use changes::push_changes;
pub use panics::push_panic;
pub use shown::push_told;
