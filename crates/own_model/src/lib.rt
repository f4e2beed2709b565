//! What happens to one session, what it is answered, and the machine that answers so when nobody else is there.
//!
//! The crate is one of definitions. `specs/` reads in the order of its modules:
//! - `Own` reads a session's events and replies off the kernels that a history goes through;
//! - `Solo` is the machine of one session, a function from its state and an event to the next state and a reply;
//! - `Tied` says when a call of a kernel and one of a machine do the same next, and an instance of each is the same;
//! - `Isolation` says that a session is answered as its machine, whatever else happens; `realm_model` proves it.
//!
//! Nothing here touches RAM, a port or a thread.
//!
//! # What is proved
//!
//! - The machine of a session stays in order (`machines_stay_in_order`), and answers the same where a job may take more
//!   steps (`more_steps_agree`).
//! - What the normal world is shown of a call that goes out with a reply is its registers and what is written for it.
//!   That is a function of the reply and of the call's places, but for a4 to a7, which are as the processor came in
//!   with them (`exits_show_replies`). Its places are its slot, its area and buffer, the slot of the call that it
//!   wakes, its argument, the places of its parameters, and the number of the session that it opens.
//! - The worked histories (`specs/Examples.antt`) have the events and replies that are written there, and the session's
//!   machine gives these replies (`worked_examples`).
//!
//! All of it is about the written kernel: that the code stands for it is what the crates of the kernel prove. The crate
//! has no code but two types; its edits are of the definitions ("Wrong definitions of isolation" in
//! `docs/wrong-bodies.md`).
#![tactic(auto)]

mod laws;
mod own_event;
mod own_reply;

pub use laws::{exits_show_replies, machines_stay_in_order, more_steps_agree, worked_examples};
pub use own_event::{BackInput, OwnEvent, OwnInput};
pub use own_reply::OwnReply;
