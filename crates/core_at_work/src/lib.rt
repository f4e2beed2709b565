//! A core at work: beside the core, what each processor that is inside goes out with.
//!
//! A processor comes in and goes out by its number. Its granted steps need neither the core nor RAM, so they are done
//! as it comes in, and what they came to is kept until it goes out. The RAM that it sees is lent to each call, since
//! those who hold a core keep RAM in different ways: one for each processor, or one for all that is written anew before
//! each entry. Contracts say what the core's own entry and exit are. That just the processors that are inside have
//! something to go out with, each its own, is a fact of the type.
//!
//! `booting` boots a core, `core_at_work` and `working` have the core, and `went_out` says what a processor goes out with.
//!
//! It touches the lane that each call is lent, which an entry reads and an exit writes, and no port and no thread.
//!
//! # What is proved
//!
//! What a processor goes out with is its open entry, behind its granted steps, so that it can always go out. `core_of`,
//! which boots a core, is refused for want of memory alone, as no UUID stands twice.
//! - `enter` is the core's entry (`HasEntered`) and the granted steps behind it, which need neither the core nor RAM,
//!   or a refusal, by which the core and what its processors go out with are as they were (`ComesIn`). `prepare` and
//!   then `admit` are such an entry in two, between which what was decided can be read. `may_enter` tells exactly whether
//!   a visitor can come in, `is_inside` whether a processor is inside; `outgoing` lends what a processor goes out with to
//!   be read.
//! - `leave` is the core's exit (`HasLeft`) with what was kept. Beside the registers it tells the code of the panic in
//!   which the granted steps have ended, if they did, and no other (`GoesOut`): that of the kernel's own grant
//!   (`panic_of`), which shows in no register; `panic` tells it before. Neither an entry nor an exit changes what
//!   another processor goes out with.
//!
//! # Definitions
//!
//! - `insides`, `IsInside`, `IsOutside` (`Insides`): a core without events has all its processors outside
//! - `ComesIn`, `GoesOut` (`Working`), an entry and an exit of a core at work: each is the core's own, and between them
//!   is kept what the processor goes out with; what another goes out with stays
//! - `panic_of` (`Panics`), the code of the panic in which the call that a processor works on ends within its granted
//!   steps, by the grant of its job: a call that rests has none
#![tactic(auto)]

mod booting;
mod core_at_work;
mod went_out;
mod working;

pub use base::NoMemory;
pub use booting::{core_of, core_on};
pub use core_at_work::CoreAtWork;
pub use kernel_entry::{Prepared, Visitor};
pub use went_out::WentOut;
pub use working::MOST_STEPS;
