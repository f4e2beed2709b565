//! The thread slots of the core: which calls are under way, and which of them wait to be resumed.
//!
//! `optee_smc.h` calls them threads. A caller learns the number of its slot when its call is suspended,
//! and resumes the call by that number.
//!
//! It touches no RAM, no port and no thread.
//!
//! # What is proved
//!
//! `enter` takes the lowest free slot, and answers None exactly where none is free; `resume` hands out the value of a
//! suspended slot to its own client, and else names the refusal, in its order, and changes nothing; `suspended_call`
//! lends it by the same refusals; the whole list of slots is said after every call.
#![tactic(auto)]

mod bad_resume;
mod examples;
mod slot;
mod slots;

pub use bad_resume::BadResume;
pub use base::NoMemory;
pub use examples::worked_examples;
pub use slot::Slot;
pub use slots::{MAX_SLOTS, Slots};
