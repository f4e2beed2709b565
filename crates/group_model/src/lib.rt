//! What happens to the sessions of a single-instance application, what they are answered, and the machine that answers so
//! when no other application is there.
//!
//! Such sessions share one instance, so that each can see what the others did; all of them are a group. The crate is
//! one of definitions. `specs/` reads in the order of its modules:
//! - `Group` is the machine of a group, a function from the application, its state and an event to the next state and a
//!   reply, where it takes the event;
//! - `Read` reads a group's events and replies off the kernels that a history goes through;
//! - `Tied` says when a session or a call of a kernel and one of a machine do the same next, over the calls in their
//!   slots (`Line`);
//! - `Isolation` says that a group is answered as its machine, whatever else happens, and `OneLaw` says so of sessions
//!   and groups alike; `realm_model` proves both;
//! - `Examples` has replies of small boots, where they agree;
//! - `Embedding` says what the state, the events and the replies of a session's machine (`own_model`) are in the
//!   machine of a group that has this one session.
//!
//! Nothing here touches RAM, a port or a thread.
//!
//! # What is proved
//!
//! - The machine stays in order (`machines_stay_in_order`), and answers the same where it is given more steps to a stop
//!   (`more_steps_agree`).
//! - Small histories are computed (`specs/Examples.antt`): what their sessions were answered, and what the machine
//!   answers to their events, which is the same (`worked_examples`).
//!
//! The machine of a session of an application whose sessions share no instance is that of a group which has this one
//! session:
//! - At each event that can come the one steps where the other does, to the same with the same reply, and the group's
//!   refuses what the session's refuses, but for a second open (`sessions_step_as_groups`).
//! - That no thread was free for a new call happens to no group, and leaves the session what it is.
//! - So over events in a row the group is told what the session is, but for that, and besides that its open has opened
//!   session 0 (`sessions_reply_as_groups`). Where the group's machine takes them and only the first is an open, so
//!   does the session's (`groups_reply_as_sessions`).
//! - *Can come* means that the open is first, and an invoke, a close and a cancel are in the opened session with its
//!   instance there. The session's machine alone takes them while it is being opened, too, and a cancel at any time.
//!
//! The crate has no code but two types; its edits are of the definitions ("Wrong definitions of groups" in
//! `docs/wrong-bodies.md`).
#![tactic(auto)]

mod embedding;
mod group_event;
mod group_reply;
mod laws;
mod machine;

pub use embedding::{groups_reply_as_sessions, sessions_reply_as_groups, sessions_step_as_groups};
pub use group_event::GroupEvent;
pub use group_reply::GroupReply;
pub use laws::worked_examples;
pub use machine::{machines_stay_in_order, more_steps_agree};
