//! Which sessions there are, and which calls wait for an instance.
//!
//! A session ties a client to an instance of a trusted application, from the open that reserves its
//! number to its close. A call that finds its instance held by another call waits in line for it.
//!
//! It touches no RAM, no port and no thread.
//!
//! # What is proved
//!
//! Sessions are a finite map from numbers that rise from 1 and aren't given twice; calls that wait are a list in order.
//! The whole value is said after every call.
#![tactic(auto)]

mod examples;
mod session;
mod sessions;
mod waiters;

pub use base::NoMemory;
pub use examples::worked_examples;
pub use session::Session;
pub use sessions::{MAX_SESSIONS, Sessions, Users};
pub use ta_params::Login;
pub use uuid::Uuid;
pub use waiters::{MAX_WAITERS, Waiter, Waiters};
