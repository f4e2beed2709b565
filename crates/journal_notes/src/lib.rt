//! What is noted of somebody as the events of a journal are done again: of a session, or of the sessions of an
//! application.
//!
//! Each entry is decided once: what it is for them is read off what was decided, before it is done again; once the core has
//! done it, it is noted, and so is an exit. The list of what happened to them, each beside what they were answered, is taken
//! event by event, so that no journal's whole list need be kept.
//!
//! `logged` has logs, `notes` what notes can do, `noting` does an event again and notes it, and `reading` reads a log event
//! by event, or whole.
//!
//! It touches the RAM of the core on which events are done again, and no port and no thread.
//!
//! # What is proved
//!
//! - Notes of a type (`EventNotes`) are of somebody, have a log by each history, and say when they are what is noted by
//!   one (`Meaning`).
//! - Where they are what is noted by the events that a `Replay` has done, `read` does an event of any journal again and
//!   answers with what it adds to the log, or that no legal and steady history goes on with it (`Reads`), or want of
//!   memory.
//! - `read_all` gives the whole log of a journal that begins a legal and steady history, or tells want of memory.
//! - Both ask that the reads of all entries stay within the read limit. What an entry is for them is told once
//!   it is prepared, and noted once it is done.
//! - What the notes of a type are by an event is promised by that type's own methods: `isolation` has a session's and
//!   `instance_groups` a group's, and neither does an event again by itself.
#![tactic(auto)]

mod logged;
mod notes;
mod noting;
mod reading;

pub use base::NoMemory;
pub use journal_replay::{CoreAtWork, Replay};
pub use logged::{BoxedEntry, Logged, events_in, replies_in};
pub use notes::EventNotes;
pub use reading::{read, read_all};
