//! A core at work with its processors, each of which sees RAM of its own.
//!
//! A processor comes in and goes out by its number. The machine lets the core read and write that processor's RAM alone. Contracts
//! say of a machine where it stands in a play: `IsAt` ties its core's events and kernel and its RAM to those of the play, and each
//! call makes the play's own step.
//!
//! It touches the RAM of its own processors, and no port and no thread.
//!
//! # What is proved
//!
//! A new machine stands at the play where nothing has happened. `Machine::with_fills` makes one of a core and of fills,
//! at the first play of these whose entries may read as much as the core's. `Machine::booted` makes one of the boot and
//! the fills of a trace, whose core keeps its events, and whose entries may read up to the read limit. `first_lanes`
//! gives each processor zeros with the fills. No call changes the core's terms.
//!
//! Where a machine stands at a play (`IsAt`: boot, history, kernel, how much entries may read, and RAM),
//! - `enter` brings it to the play's entry of that visitor and does the granted steps, or is refused just where the
//!   play's is, with the bytes that were read and would be. A refused entry, for want of memory too, leaves it at the
//!   same play;
//! - `leave` brings it to the play's exit and answers the registers that this prints, and the code of the panic in
//!   which the granted steps of its call have ended, if they did;
//! - `pages_of_exit` gives pages outside of which the exit of a processor leaves its RAM as it was;
//! - `write` makes the play's write; `show` lends the bytes that the play would show, and `ram` all of them;
//!   `is_inside` tells who is inside;
//! - `serve` takes a list of entries and exits, each processor's by turns (`CanAllCome`). All of it comes, and the
//!   machine stands at the play after the list's items, whose lines are the answers; or so many come, and then the next
//!   is refused in that play too, or memory was wanting. Answers have their room before the first entry, so that none
//!   is lost. Behind it the events are legal and extend those before.
//!
//! `can_come` and `can_serve` tell exactly whether an entry, an exit or a list can come, so that each caller can meet
//! the conditions; `cpus` tells how many processors there are. What can come in the play can come in the machine, each
//! machine stands at a play (`machines_stand`), and an entry or an exit changes nobody's turn but its own processor's
//! (`turns_are_taken`).
//!
//! # Definitions
//!
//! A machine says nothing of the lines that a play has printed: what it prints is what its calls answer.
#![tactic(auto)]

mod booting;
mod calls;
mod filling;
mod laws;
mod machine;
mod serving;
mod smc;
mod turns;

pub use core_at_work::{Visitor, core_of, core_on};
pub use filling::{first_lane, first_lanes};
pub use laws::{machines_stand, turns_are_taken};
pub use machine::Machine;
pub use smc::{Smc, Stopped, Told};
