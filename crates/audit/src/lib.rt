//! Whether a journal, from whomever it comes, is a legal and steady history of a core of its boot; and if it isn't, which of its
//! events is the first that can't be.
//!
//! The events are done again on a core, one after the other. Steady is a history in which the reads of each entry agree on every
//! address that they share.
//!
//! It touches the RAM of the core on which the journal is done again, and no port and no thread.
//!
//! # What is proved
//!
//! - `check` gives the verdict of `audit_model` on the events of any journal: Legal exactly where a legal and steady
//!   history begins with them, and else Illegal at the first event such that none begins with the events up to and with
//!   it; or want of memory.
//! - It asks that the boot is within the limits, that no UUID stands twice, those of built-in applications among them,
//!   and that the reads of all entries stay within the read limit. What `read_journal` gives beside the UUIDs of these
//!   applications meets that: its boot by `read_boots_can_be_checked`, its events by a clause of `read_journal`.
//! - Each legal history whose reads stay within the read limit, and so the journal of each core whose entries may read
//!   no more, is within the limits of journals that can be written (`core_journals_are_sound`).
//! - The history of each play of a trace, whatever RAM holds at first, is legal and steady, so the verdict on it is
//!   Legal (`plays_are_faultless`): what an entry of a play reads are bytes of its processor's RAM.
#![tactic(auto)]

mod checking;
mod laws;

pub use audit_model::Verdict;
pub use base::NoMemory;
pub use checking::check;
pub use journal_bytes::{ReadJournal, TraceFault, read_journal, write_journal};
pub use laws::{core_journals_are_sound, plays_are_faultless, read_boots_can_be_checked};
