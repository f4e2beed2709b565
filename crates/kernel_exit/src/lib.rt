//! What a processor takes out of the core: what its call has come to, with what that makes of sessions and instances,
//! what is told of it, and what that leaves of the core.
//!
//! Each function is named as the definition of the kernel that it computes.
//!
//! It writes to the lane that it is lent, of which it reads nothing, and touches no port and no thread. It takes no
//! memory.
//!
//! # What is proved
//!
//! - Where the tables of a core are the kernel's and a call as data stands for its pending call, two functions make of
//!   both what the kernel makes of them: `after_grant` what its `after_grant` makes of the call that ran, for each
//!   stop, and `after_rest` what `progress_in` makes of one that asks, waits or has ended. Sessions are settled,
//!   removed or kept by kind and result; the instance is given back, killed or removed, and its pages go back to the
//!   pool, which has just the free ones afterwards; whom the call wakes is fixed behind that.
//! - They ask for what holds of the kernels of legal histories: the call's session and instance are kept, the instance
//!   is held, and as many bytes come back as it has pages.
//! - Of the call that then goes out, `answer_of` gives the kernel's answer, and `tell` makes its writes in their order
//!   and no others. `slot_left` leaves the slot as the kernel's does: suspended with the call, without its buffer where
//!   that is given back, or free. `tables_left` drops the pins of a slot that is left free. `tell` asks that the places
//!   written to lie in RAM and that a request fits its message.
//! - `leave` is the exit of a core whose processor is inside with its work done (`CanLeave`): its events are one `Exit`
//!   more, its registers and writes are those of the kernel's exit there, what it was booted with stays (`HasLeft`),
//!   and it is a core again, so that its parts stand for the kernel behind the exit. All that its parts ask for follows
//!   from the laws of legal histories. It always answers.
//!
//! # Definitions
//!
//! Each function computes the kernel's definition of its name; what stands in `specs/` is what they ask for and how a
//! call as data, a slot and the tables of a core are set beside that definition.
//!
//! | Kernel's definition | Code |
//! |---|---|
//! | `sessions_after`, `sessions_after_panic`, `sessions_unrun`, `has_opened` | the same, in `src/sessions.rt` |
//! | `gives_back` with `given_back`, and with `killed` | `give_back`, `give_back_dead` |
//! | `tables_after_end`, `tables_after_panic`, `tables_unrun` | the same |
//! | `woken_by`, `shows_result` | the same |
//! | `after_grant` with `after_stop` | `after_grant` |
//! | `progress_in`, of a call that doesn't run | `after_rest` |
//! | `answer_of`, `slot_left`, `tables_left` | the same, in `src/telling.rt` |
//! | `writes_of`, and for each of its parts `word32`, `output_writes`, `session_writes`, `result_writes` | `tell`, and `put_word`, `put_outputs`, `put_session`, `put_result` |
//! | `progress_of`, of the call that is carried | `comes_to` |
//! | `goes_out_from` with `kernel_left`, `exit_with`, `goes_out` | the same, in `src/going_out.rt` |
//! | `exit` | `leave` |
#![tactic(auto)]

mod going_out;
mod instances;
mod progress;
mod sessions;
mod tables_after;
mod telling;

pub use going_out::leave;
pub use progress::{after_grant, after_rest};
pub use tables_after::{tables_after_end, tables_after_panic, tables_unrun};
pub use telling::{answer_of, slot_left, tables_left, tell};
