//! The events of a journal done again on a core, one after the other, up to the first that can't have come next.
//!
//! Before an entry the bytes that it read are laid into RAM; a core of the same boot then decides it, and reads what the kernel
//! reads. An entry that read something else, and an exit with other registers, can't have been. Nothing is assumed of a journal,
//! which may come from anybody.
//!
//! `laying` lays reads into RAM, `comparing` compares what was done, and `redoing` does an event on the core that `replay` has.
//!
//! It touches RAM of its own, into which it lays reads, and no port and no thread.
//!
//! # What is proved
//!
//! - A `Replay` is a core on which the events of a journal are done again, whoever made it.
//! - `redo` answers true where the event was done behind those before it, false where those and this one are no legal
//!   and steady history, whatever the event is, or tells want of memory (`Does`). So true comes exactly where they are
//!   one, since the events that were done always are (`replays_are_faultless`). It asks that the reads of all entries
//!   stay within the read limit. Its entry is lent in three parts: `lay_for`; `prepare`, by which the entry reads what
//!   the journal says or can't come next (`PreparesNext`), and which, whatever it answers, leaves RAM as it was laid and
//!   the core as it was, but with more room; and `admit`. So what was decided can be read off before it is done.
//! - `lay` lays reads into RAM: where each is of some bytes of RAM, and no two have different bytes at one address, RAM
//!   then has the bytes of all of them. The reads of an entry of a legal and steady history are such, so a core reads
//!   them again.
#![tactic(auto)]

mod comparing;
mod laws;
mod laying;
mod redoing;
mod replay;

pub use base::NoMemory;
pub use comparing::last_has_left;
pub use core_at_work::{CoreAtWork, Prepared, Visitor};
pub use laws::replays_are_faultless;
pub use laying::lay;
pub use replay::Replay;
