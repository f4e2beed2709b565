//! What two journals show of a session, or of the sessions that share one instance: whether the same happened to it in both, or
//! where that first differs.
//!
//! Each journal is done again once, which checks it and reads the log of the session or of the group off it. The two
//! logs are compared as they are read, and of both only what the other lacks is kept.
//!
//! `comparing` has the calls, `reading` reads both journals, whosever logs they are, `realms` by the reader of `realm_notes`,
//! `sessions` and `groups` say whose,
//! `differing` compares the logs, `apart` says what the two applications alone show, and `illegal` what is told of
//! journals that can't be. `same_events`, `same_inputs`, `same_params` and `same_apps` say when
//! two events, what came with them, parameters and applications are the same.
//!
//! It touches the RAM of the cores on which the journals are done again, and no port and no thread.
//!
//! # What is proved
//!
//! - `compare` gives the answer of `compare_model` on two journals that were read and a session (`IsComparedAs`), and
//!   `compare_groups` that on them and the group of an application, or want of memory: Illegal, Absent, Other, Events
//!   or Same, each where none before it comes. They ask of each journal what `check` of `audit` asks, and nothing of
//!   the session or the UUID.
//! - The first journal is done again once more where the second can't be. Where a boot has no application of the
//!   group's UUID, both are checked.
//! - Both logs are compared as they are read, and only what one log has more than the other is kept (`Compares`). That
//!   is proved once, for whatever reads a log off a journal (`ReadsLog`), as the reader of a realm does. What happened to a
//!   session or a group stands there event by event, so that both logs differ where those of the session or the group do
//!   (`Told`).
//! - Events, applications and images are compared field by field, and the functions that do so say that they are the
//!   same exactly where they are equal.
//! - At Same the replies are equal in both, by the law of `compare_model` (`same_replies`).
#![tactic(auto)]

mod apart;
mod comparing;
mod differing;
mod examples;
mod groups;
mod illegal;
mod reading;
mod realms;
mod same_apps;
mod same_events;
mod same_inputs;
mod same_params;
mod sessions;

pub use base::NoMemory;
pub use compare_model::{Compared, Subject};
pub use comparing::{compare, compare_groups, compare_on};
pub use examples::worked_examples;
pub use journal_bytes::ReadJournal;
