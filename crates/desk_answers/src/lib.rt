//! What a desk of signals answers above the core.
//!
//! As a processor goes out of the core, the desk may have to answer in the kernel's place: to tell a value, to let signals
//! count, to say that there are notifications, to run a bottom half, or to stop. [`duty_of`] says by how the processor came
//! in and by the kernel's answer what is asked, and [`answer`] does it. The definitions are those of `notify_play`.
//!
//! It touches no RAM, no port and no thread.
//!
//! # What is proved
//!
//! `duty_of` is the definition's duty, where a new call's first read is the head of its argument; `answer` gives the
//! registers that are told, the result that is written and the desk after, as the definitions say.
#![tactic(auto)]

mod answering;
mod duty;

pub use answering::{ResultIn, Told, answer};
pub use duty::{Duty, duty_of};
