//! Applications that are functions of the program, in place of an image, and drivers, which are functions that
//! notifications are for: what each answers, stated beside its function, and the table of those that there are.
//!
//! A `Native` is made by whoever has the function, as `Native { uuid, relation, call }`, and a `Driver` as
//! `Driver { value, relation, call }`: the prover then asks that the function answers as the relation says. Its
//! function is handed on as a value, and is known above by its relation alone. `program_natives!` makes the table of the
//! program itself.
//!
//! It touches no RAM, no port and no thread.
//!
//! # What is proved
//!
//! - A `Native` keeps the fact that its function may be called with every command and every parameters, and then
//!   answers as its relation says; none can be kept, lent or passed on without it. `digest` meets the digest's
//!   relation, with `sha2`'s function, and so can be kept beside it (`digest_of_a_native`).
//! - `add` puts an application behind the others, or answers Repeated exactly where its UUID is there, Full exactly
//!   where it is not and sixteen are kept, or want of memory, and then the list stays. `uuids` gives the UUIDs in their
//!   order, each once; `get` gives the application of a UUID.
//! - A `Driver` keeps the fact that its function answers every number as its relation says; none can be kept, lent or
//!   passed on without it. A function that gives its number back can be kept beside Echo (`echo_of_a_driver`).
//! - `add_driver` puts a driver behind the others, or answers Range exactly where its value isn't from 1 to 63,
//!   Repeated exactly where it is and a driver has it, or want of memory, and then the list stays. `get_driver` gives
//!   the driver of a value. Each of `add` and `add_driver` leaves the other's list.
//! - `program_natives!` makes the program's own table where it is used: the digest under its UUID, and a driver of
//!   value 1. That these alone are beside a trace is a clause of `core_c`; of the program, whose `main` has no
//!   contract, it is read off the same macro.
#![tactic(auto)]

mod digesting;
mod driver;
mod driver_relation;
mod examples;
mod laws;
mod native;
mod native_app;
mod natives;
mod program;
mod relation;

pub use digesting::digest;
pub use driver::{Driver, DriverFn};
pub use driver_relation::DriverRelation;
pub use examples::worked_examples;
pub use laws::{digest_of_a_native, echo_of_a_driver};
pub use native::{Native, NativeFn};
pub use native_app::NativeApp;
pub use natives::{AddFault, DriverFault, MAX_DRIVER_VALUE, MAX_NATIVES, Natives};
pub use program::{DIGEST_UUID, echo};
pub use relation::Relation;
pub use ta_params::CopiedParams;
pub use uuid::Uuid;
