//! How a call begins to work on its instance: what it asks of the tables first, and what it changes.
//!
//! A call that begins holds its instance, one that is kept or one that is made for it, and starts at the first of its
//! entry points. What is asked is lent to read; what is changed takes no memory and can't fail.
//!
//! It touches no RAM, no port and no thread.
//!
//! # What is proved
//!
//! - `open_kept`, `open_new`, `open_made` and `begin_on` leave the tables that the kernel's definitions `opens_kept`,
//!   `opens_new`, `opens_made` and `begins_on` give, and the call runs the job of those definitions under the key that
//!   it has: on a kept instance, which the call then holds, or on a new one, whose pages come from the pool. All else
//!   of the call stays. The pool keeps having just the pages that no instance has.
//! - `shared_instance`, `awaited_number`, `has_pages_for`, `destroy_after`, `destroy_of` and `closing_points` answer as
//!   their definitions do.
//!
//! # Definitions
//!
//! What it means that a call has begun is defined in `kernel_model` (`specs/Begin.antt`). `HasBegun` ties the code to
//! that: the tables after it are those of what has begun, the call as data runs its job, is of the application and the
//! instance, and all else of it stays as it was. Of an instance that an open shares `shown` asks the number, whether it
//! is dead, and who holds it.
//!
//! | Case | Kernel's definition | Code |
//! |---|---|---|
//! | the instance that an open shares | `shared_instance` | `shared_instance` |
//! | the number of an instance that is gone, for which calls wait | `awaited_number` | `awaited_number` |
//! | free pages for a new instance | `has_pages_for` | `has_pages_for` |
//! | open on a kept instance | `opens_kept`: `held_by`, `Open ∷ []` | `open_kept`: `hold`, `Points::opening(false, ..)` |
//! | open on a new one of a number | `opens_new`: `made_for`, `fresh_memory` | `open_new`: `make` with `fresh_pages` |
//! | its entry points, create and then open | `opens_new`: `Create ∷ Open ∷ []` | `open_new`: `Points::opening(true, ..)` |
//! | open on a new one, whose number calls await or is the next | `opens_made` | `open_made`, with `number_for` |
//! | its destroy, for an open that fails | `destroy_after` | `destroy_after` |
//! | invoke or close on the session's instance | `begins_on`, `session_job` | `begin_on` |
//! | on a dead instance nothing runs | `program_on` | `program_on`; `held_of`: `Held::Dead` |
//! | the entry points of a close | `closing_points`, `destroy_of` | `closing_points`, `destroy_of` |
//! | the job starts at the first entry point | `begun_job`, `idle_job` | `start`, with `Cont::start_on` |
#![tactic(auto)]

mod asking;
mod found;
mod holding;
mod opens;
mod points;
mod session_calls;

pub use asking::{SharedInstance, awaited_number, has_pages_for, shared_instance};
pub use opens::{OpenCall, open_kept, open_made, open_new};
pub use points::{Points, closing_points, destroy_after, destroy_of};
pub use session_calls::{SessionCall, begin_on};
