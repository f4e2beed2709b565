//! All events at the border of a core so far, kept as data, or counted and let go of.
//!
//! Contracts see the same of a log in both forms: the list of its events, and how many more have room. Only one that keeps
//! them can lend them as data; both know how many there were, how many bytes they copied, and the last entry of each
//! processor.
//!
//! It touches no RAM, no port and no thread.
//!
//! # What is proved
//!
//! A log is a list of events, with how many more have room, and whether they are kept. `push` says the same whether
//! they are or only counted: the list is one event longer. `len`, `copied` and `last_entry` are those of the list;
//! `journal` lends it as data exactly where it is kept. That one which counts keeps no more than the last entry of each
//! processor shows in its fields, and in no clause.
#![tactic(auto)]

mod counted;
mod examples;
mod kept;
mod last_entries;
mod log;
mod who_entered;

pub use base::NoMemory;
pub use event_journal::{Event, Journal};
pub use examples::worked_examples;
pub use log::Log;
