//! The machine that runs the code of trusted applications, one instruction at a time.
//!
//! The machine, its instructions and its system calls are this project's own.
//!
//! It touches no RAM, no port and no thread.
//!
//! # What is proved
//!
//! A machine is a record.
//! - `run` is the definition's steps, repeated up to the first stop or the end of the grant, over any memory that is a
//!   list of bytes: the stop, the steps used and the machine that is left. Each machine whose image is valid has
//!   exactly one outcome at each step (`one_outcome`).
//! - Two grants are one of their sum (`sum_of_grants`); a run uses at most its grant, and at least one step of some
//!   (`steps_of_runs`).
//! - A machine that stops with a request waits with it, and else with none (`asked_of_runs`), and the bytes that the
//!   request names are all in one range (`requests_name_ranges`).
//! - `answer` sets the registers that the request gives and no others, and ends the wait. A run leaves as many
//!   registers and bytes, the login and the cancellation flag (`shape_of_runs`); the ranges of addresses begin at
//!   multiples of 10000000, hexadecimal (`ranges_begin`).
//! - Parts of a memory move at once (`read` and `write` of `TaMemory`, and of a machine within one range): what is read
//!   is that part of the list of bytes, and a write changes it alone; `part` lends bytes from an address on where they
//!   stand, at least one of them.
//! - `parts` runs written cases of each operation and system call.
#![tactic(auto)]

mod access;
mod addresses;
mod execute;
mod laws;
mod machine;
mod memory;
pub mod panic_code;
mod parameters;
mod part_access;
mod requests;
mod run;
mod stop;
mod system_calls;
mod word_access;

pub use addresses::RANGE;
pub use base::NoMemory;
pub use laws::{
    asked_of_runs, one_outcome, ranges_begin, requests_name_ranges, shape_of_runs, steps_of_runs,
    sum_of_grants, worked_examples,
};
pub use machine::{Machine, STACK_DEPTH};
pub use memory::{Plain, TaMemory};
pub use part_access::{copy_part, put_part};
pub use requests::object_span;
pub use stop::{Request, Stop};
pub use ta_params::{Login, ObjectCall};
pub use word_access::{put_word, word_of};
