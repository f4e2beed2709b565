//! What happened to the sessions of an application, and what they were answered, read off the journal of a core.
//!
//! The journal is done again and read by the reader of `realm_notes`, as that of a realm which has all sessions of the
//! application. The machine of the group, as code, can be fed with the events.
//!
//! | Module | What it has |
//! |---|---|
//! | `machine_log` | the log of a group, by that of its realm |
//! | `group_log`, `group` | what is read off a whole journal |
//!
//! It touches the RAM of the core on which the journal is done again, and no port and no thread.
//!
//! # What is proved
//!
//! Of a legal journal whose entries stay within the read limit, and each of which has read the same byte wherever its
//! own reads share an address:
//! - `group_events` and `group_replies` are the events and the replies of the group by `group_model`'s definitions,
//!   whatever the application: none, where the boot has no application of the UUID. `read_group_log` gives both by one
//!   replay, each event beside its reply, and the application, if there is one (`IsLogOf`).
//! - Where the application's sessions share an instance, its machine can be fed with what `group_events` gives, one
//!   event after the other (`feeds`), which is all that `step` of `group_solo` asks; and `group_replies` are what that
//!   machine answers to these events (`alone`).
//! - Want of memory is left open, as for `isolation`. Numbers aren't wanting (`group_calls_read`). `core_cases` runs
//!   `group_events` and `group_replies`, where memory suffices.
#![tactic(auto)]

mod group;
mod group_log;
mod machine_log;

pub use base::NoMemory;
pub use group::{group_events, group_replies, read_group_log};
pub use group_log::{GroupLog, Logged};
pub use group_model::{GroupEvent, GroupReply};
pub use group_solo::GroupSolo;
