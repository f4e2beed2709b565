//! What happened to one session, and what it was answered, read off the journal of a core.
//!
//! The journal is done again and read by the reader of `realm_notes`, as that of a realm which has this one session. The numbers
//! that a realm gives its sessions are forgotten, as the definitions of `realm_model` forget them.
//!
//! | Module | What it has |
//! |---|---|
//! | `forgetting` | the log of a session, by that of its realm |
//! | `session_log`, `own` | what is read off a whole journal |
//! | `laws` | what holds of the logs that are read off |
//!
//! It touches the RAM of the core on which the journal is done again, and no port and no thread.
//!
//! # What is proved
//!
//! Of a legal journal whose entries stay within the read limit, and each of which has read the same byte wherever its
//! own reads share an address:
//! - `own_events` and `own_replies` are the own events and the own replies of `own_model`'s definitions, whatever the
//!   session; and of a session that the law of isolation is about the replies are what the machine of one session
//!   answers to those events. `own_log` gives both by one replay, each event beside its reply, and the session's
//!   application once its open has come in (`IsLogOf`). The log has each new call that has got a slot in the session while
//!   the kernel kept that, the open among them (`logs_have_their_calls`).
//! - That machine can be fed with what `own_events` gives of such a session, one event after the other: each can come
//!   behind those before it, a call that comes in is among the session's first 2^32, and one that runs and goes out
//!   stays below 2^128 steps (`feeds`). That is all that `step` of `solo` asks. It holds since the machine of its realm is
//!   tied to the kernel before each event of the history, and no call does more steps for each than the step limit.
//! - Want of memory is left open. The reads of each entry can be laid into RAM, and a core boots with the journal's
//!   boot (`journal_replay`). Numbers aren't wanting: at most 2^23 of a session's calls have come in (`own_calls_read`).
//!   `core_cases` runs `own_events` and `own_replies`, where memory suffices.
//!
//! # Definitions
//!
//! - `IsJournal` (`Journals` of `realm_notes`): what a journal has to be to be done again
//! - `HasCall` (`Logs`): the log has a call as an event, behind what was noted before it came in: a close that comes in
//!   behind an open is `Close`, behind the open's two events
#![tactic(auto)]

mod forgetting;
mod laws;
mod own;
mod session_log;

pub use base::NoMemory;
pub use laws::logs_have_their_calls;
pub use own::{own_events, own_log, own_replies};
pub use own_model::{BackInput, OwnEvent, OwnInput, OwnReply};
pub use session_log::{Logged, OwnLog};
