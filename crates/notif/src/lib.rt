//! Asynchronous notification: a desk that keeps which values were signalled, and calls the drivers among them.
//!
//! A signal names a value. The normal world is told the values one by one (`next`), each once however often it was
//! signalled. A value that has a driver in `Natives` is told as 0, and starts a bottom half (`bottom_half`), which calls the
//! driver with how often it was signalled.
//!
//! It touches no RAM, no port and no thread.
//!
//! # What is proved
//!
//! - Each call of a `Desk` leaves the record that its definition says, and `next` and `bottom_half` answer as theirs
//!   say; `next` answers None exactly where nothing is pending. `bottom_half` asks for natives whose drivers have the
//!   values of those that the desk was made for.
//! - Whatever was called since `new`, a bottom half calls exactly the drivers that were signalled, while the desk was
//!   enabled, since the last bottom half or stop, each with the number of these signals, at most 2^32 - 1, in rising
//!   order of values (`signals_reach_drivers`).
//! - No value is pending twice (`values_pend_once`), and the desk is one for the drivers of `new`
//!   (`desks_keep_their_drivers`).
//! - What a driver is called with shows in the answer of the bottom half alone, since a driver is a function.
#![tactic(auto)]

mod desk;
mod driver_count;
mod laws;
mod noted;

pub use base::NoMemory;
pub use desk::{DO_BOTTOM_HALF, Desk};
pub use driver_count::DriverCount;
pub use laws::{
    desks_keep_their_drivers, signals_reach_drivers, values_pend_once, worked_examples,
};
pub use native_tas::Natives;
pub use noted::Noted;
