//! Which pages of RAM an exit can write to.
//!
//! [`pages_of_exit`] tells that of a processor's work with its granted steps done, before it goes out: the pages of the
//! argument of its call, of the places of its parameters, and of its area and its buffer. So what an exit has changed is
//! found without a look at all of RAM. `specs/Covering.antt` has what these pages cover.
//!
//! It touches no RAM, no port and no thread.
//!
//! # What is proved
//!
//! `pages_of_exit` gives pages with all bytes that the exit of a core writes, where the work is the core's (`CanLeave`):
//! over a lane of RAM the exit leaves every other page as it was, and the lane as long. They may be more than it writes to.
#![tactic(auto)]

mod call;
mod exit;
mod places;

pub use exit::pages_of_exit;
