//! What happened to one session, or to all sessions of an application, and what they were answered, read off the journal of a
//! core by one reader.
//!
//! The journal is done again: a core of the same boot lets the same processors in, each over RAM that has the bytes that its
//! entry read, and lets them out again. What an entry is for the realm is read off what was decided of it, before it is done,
//! and what an exit is off that core, as the definitions of `realm_model` read both off the kernel; and each is noted.
//!
//! | Module | What it has |
//! |---|---|
//! | `realm` | whose notes are taken, and all in which one session and all sessions differ |
//! | `calls` | what a new call is, whoever's it is |
//! | `arriving`, `coming` | what an entry is for the realm, by what was decided of it, and what is noted of it |
//! | `leaving`, `going` | what is told of a call that goes out, and what is noted of that |
//! | `numbering`, `sessions` | the numbers of a realm's calls, and of its sessions |
//! | `notes`, `event_notes` | what is noted, and the notes as those that `journal_notes` takes |
//! | `log`, `log_reader` | what is read off a journal, event by event, or of a whole one |
//!
//! It touches the RAM of the core on which the journal is done again, and no port and no thread.
//!
//! # What is proved
//!
//! - A `LogReader` reads the log off any journal, event by event, with no more asked than by a `Replay`: it answers with what
//!   the event adds to the log by the definitions, or that no legal and steady history goes on with it (`Reads`), or want of
//!   memory. What it has told it doesn't keep: what an event adds doesn't depend on what stands in the log (`event_adds`). Of a
//!   journal that begins a legal and steady history `reads_all` gives the whole log.
//! - The journal is done again on a core of the same boot, over RAM that has what each entry read; what an entry is for the
//!   realm is read off what that core has decided, once, and what an exit is off the core (`journal_notes`).
//! - What a new call is, whoever's it is, `planned_call` tells by the plan that was made of it: an open of an application,
//!   whatever its later tests come to, a call in a session, or neither. What is of others is told nobody: a new call is put on
//!   the heap as an event, once, where it may be one of the realm.
//! - Want of memory is left open. Numbers aren't wanting: the entry of each of a realm's calls has read the 32 bytes of its
//!   argument's head (`realm_calls_read`), and each of its sessions was given by such a call.
//!
//! # Definitions
//!
//! Here stands when the code's notes of a realm are those that `realm_model` defines (`AreNoted`).
//!
//! - `realm_of`, `takes_open`, `counts`, `room_as` (`Realms`): the realm that the code's stands for, and what the two kinds differ
//!   in: which open may be a member's, which call counts, and whether an open that comes back is asked for pages
//! - `IsJournal` (`Journals`): what a journal has to be to be done again: it is legal, its entries stay within the read limit, and
//!   reads of one entry agree
//! - `Reads` (`Reading`): how far a reader has read a realm's log: an event adds to the log, or can't come next
#![tactic(auto)]

mod arriving;
mod calls;
mod coming;
mod event_notes;
mod going;
mod leaving;
mod log;
mod log_reader;
mod notes;
mod numbering;
mod realm;
mod sessions;

pub use base::NoMemory;
pub use group_model::{GroupEvent, GroupReply};
pub use log::{BoxedEntry, Logged};
pub use log_reader::LogReader;
pub use own_model::{BackInput, OwnInput, OwnReply};
pub use realm::Realm;
pub use realm_model::RealmEvent;
