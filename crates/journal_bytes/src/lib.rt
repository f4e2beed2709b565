//! The bytes of a journal: a magic, what the core was booted with, its events, and an end.
//!
//! [`write_journal`] writes one spelling of a boot and its events, and [`read_journal`] reads all of them, whatever stands
//! behind the end. The form is this project's own; `docs/formats.md` states it.
//!
//! It touches no RAM, no port and no thread.
//!
//! # What is proved
//!
//! - `read_journal` takes at most 2^28 bytes. It answers Ok exactly for those that begin with the spelling of a boot
//!   and its events, up to and with an end, with both and the number of these bytes and of their records, whatever
//!   stands behind them, or want of memory. `Bad` has exactly the bytes' first fault, its kind and its place.
//! - With what was read a core can be booted, and the events are within their limits (`IsSoundJournal`). All bytes
//!   spell one journal or have one first fault, and not both (`one_meaning`).
//! - `write_journal` gives one spelling of a boot and events that are within their limits, with a record for a key that
//!   isn't of zeros. Those bytes, whatever stands behind them, are spelled as that boot and these events, whatever is
//!   built in but has none of the boot's UUIDs (`written_is_read`). Of the values that it is lent `write_journal` says
//!   so itself: their key, UUIDs and registers have the sizes that the law asks for (`SpellsBack`).
//! - Nothing is said of whether the events can have happened.
#![tactic(auto)]

mod body;
mod laws;
mod reading;
mod record_kind;
mod recording;
mod taking;
mod writing;

pub use base::NoMemory;
pub use laws::{one_meaning, worked_examples, written_is_read};
pub use reading::{ReadJournal, read_journal};
pub use trace_text::{BadKind, TraceFault};
pub use writing::{END, MAGIC, write_journal};
