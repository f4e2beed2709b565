//! A resume, `OPTEE_SMC_CALL_RETURN_FROM_RPC`: which call it is for, what it gives that call, and what becomes of it.
//!
//! First it is decided, over the slots and the lane, both lent to read: no such call, or the call of the slot and what
//! it is given. Memory is taken there alone. Then that is applied to the call and to the tables, which takes no memory
//! and can't fail.
//!
//! It reads the lane that it is lent, and touches no port and no thread.
//!
//! # What is proved
//!
//! - `decide` finds the call that a resume is for, by its slot and its client. It tells the slot, the application of a
//!   call that waits, and what the call is given: the buffer that the registers offer, no buffer, the reply that is
//!   read of the lane, or nothing. What it reads is what the definition reads, also where it reads nothing, and at want
//!   of memory nothing is listed.
//! - `resume_call` then makes of the call and the tables what `onward_of` says of the kernel's, for each call of the
//!   kernel that the data stands for. The call sees that it was cancelled and has its buffer; it goes on, or, where it
//!   waited, is tested again: it begins under the boot's key on its instance or on a new one, sleeps on, or ends. It
//!   takes no memory and can't fail. That what a call asks for fits a message is proved here.
//! - It asks of its caller what holds of each kernel (`CanDecide`, `CanResume`): that a call that waits stands in line,
//!   that its session is on its instance and that of its application, and that an open can make its instance again
//!   where that is gone.
//!
//! # Definitions
//!
//! The code follows `Given.antt` and `Resume.antt` of `kernel_model` name by name: `call_resumed_by`, `given_to`,
//! `offered_buffer`, `call_given`, and, as imperatives, `see_mark` for `sees`, `resume_waiting`, `test_again`,
//! `sleep_on`, `begin_in`, `begin_open`, `begin`, `end_with`. The other phases of `onward_in` are one function,
//! `go_on`.
//!
//! | Test or case | Kernel's definition | Code |
//! |---|---|---|
//! | no call in the slot for the client, or ERESUME | `call_resumed_by`, `resume` | `call_resumed_by`; `decide`: `return Ok(None)` |
//! | it was interrupted, or has given its buffer back: nothing | `given_after`: `Interrupted`, `FreesBuffer`, `Finishes` | `given_to`: the same of `Leaving` |
//! | it wanted a buffer: one or none | `given_after`: `WantsBuffer`, `offered_buffer` | `offered_buffer`, `buffer_or_none` |
//! | it asked for something: the reply | `given_after`: `Requests`, `reader_at` | `reply_at` |
//! | it was cancelled: it sees that | `sees`, `phase_seen` | `see_mark` |
//! | it was given a buffer | `call_given` | `call_given` |
//! | its application runs | `onward_in`: `Runs` | `go_on`: the call stays |
//! | its application has asked | `onward_in`: `Asks`, `phase_when_given` | `go_on`, with `Cont::resume_with` |
//! | it has a result | `onward_in`: `Ends`, `still_wakes` | `go_on`, with `Cont::resume_with` |
//! | it waits: its session is gone | `resumes_waiting` | `resume_waiting`: `None` |
//! | it waits: its instance is dead, and it is no close | `tested_again`: `is_dead && not (is_close ..)` | `test_again`: `is_lost` |
//! | it waits: another call holds the instance | `tested_again`: `is_held`, `sleeps_on` | `test_again`: `is_held`, `sleep_on` |
//! | there it was given no buffer | `sleeps_on`: `is_without_buffer` | `sleep_on`: `if without_buffer` |
//! | an open begins, its instance kept | `begins_open`: `Some instance` | `begin_open`: `is_kept` |
//! | an open begins, its instance gone | `begins_open`: `None`, `has_pages_for` | `begin_open`: `has_pages_for`, else OUT_OF_MEMORY |
//! | an invoke begins | `begins_in`: `kind.Invoke func` | `begin_in`: `CallKind::Invoke` |
//! | a close begins | `begins_in`: `kind.Close` | `begin_in`: `CallKind::Close` |
//! | an invoke or a close whose instance is gone | `begins_in`: `_` | `begin_in`: the last three cases |
//! | it waits no more | `without_waiter` | `Waiters::leave` in `begin`, `begin_open` and `end_with` |
#![tactic(auto)]

mod deciding;
mod finding;
mod giving;
mod onward;
mod resuming;
mod seeing;
mod waiting;

pub use deciding::{Decided, decide};
pub use resuming::{Resumed, resume_call};
