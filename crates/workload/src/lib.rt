//! A large valid trace that is made of a number, for measuring.
//!
//! Each call of it is chosen by the numbers of a linear congruential generator: a fast call, an open, a call of a session,
//! or a resume. `docs/formats.md` states which.
//!
//! It touches no RAM, no port and no thread.
//!
//! # What is proved
//!
//! `make_work` gives the trace of its definition, whose boot has a key of zeros, for every seed and up to as many calls
//! as the item limit, or want of memory. In each trace that the definition gives, for any number of calls, a call has
//! no argument or one at 40000000, and what is written there is a whole argument of at most 96 bytes
//! (`made_traces_read_little`).
#![tactic(auto)]

mod calls;
mod laws;
mod message;
mod work;

pub use base::NoMemory;
pub use laws::{made_traces_read_little, worked_examples};
pub use work::{MOST_CALLS, make_work};
