//! A processor comes in: `enter`, or `prepare` and then `admit`, between which what was decided can be read.
//!
//! What its registers ask for is decided first, over parts and a lane that are lent to read: an answer that is fixed,
//! a new call, or a call that is resumed. All memory is taken there. Then the processor is let into the parts of the
//! core, which takes no memory and can't fail: the plan of a new call is applied to the tables, or a call is handed out
//! of its slot and resumed. The parts then stand for the kernel after that decision, and the processor carries the call.
//!
//! It reads the lane that it is lent, and touches no port and no thread.
//!
//! # What is proved
//!
//! - `apply` makes of the tables and the plan of a new call what the kernel takes the slot for (`taken_of`), for each
//!   boot whose key the call's box has. The call is settled, runs, or waits; sessions, instances, pins, waiters and
//!   registered buffers are the definition's; and the pool keeps having just the free pages. The slot pins the cookie
//!   that names the argument first, whatever the plan.
//! - `enter_fixed`, `enter_new` and `enter_resumed` let a processor into the parts of a core (below).
//! - `prepare` takes all memory of an entry, and tells what was decided: the kernel decides just so, by just the reads
//!   that are listed, and a call that goes on is given just this. The core stays, with more room; or the entry is
//!   refused as below. `admit` then lets a processor with these registers in; it takes no memory and can't fail.
//! - `enter` is such an entry at once, which parts the kinds of calls: one event more, whose reads have the lane's bytes,
//!   and the work of its processor; or it is refused, with more bytes read together than the core's terms allow or for
//!   want of memory, and boot, terms and events are as they were. All memory is taken before anything changes.
//! - What the parts ask for of legal histories is proved here from `kernel_model`'s laws: the slot's call doesn't wait
//!   yet, instances have their pages, a new instance's number is free, fewer than 80 are kept, and a call that waits
//!   stands in line.
//!
//! # Definitions
//!
//! - `FitsPlan`, `meant_by`, `is_cancel` (`Applying`): a plan to cancel means the calls of its session that have its
//!   number
//! - `IsSuspended`, `resumed_as`, `CanGoOn` (`Resuming`): a call can go on where one is suspended for the client that
//!   the registers name
//!
//! **A plan, applied.** `IsTaken` says that the tables and the call as data are those that the kernel's definition
//! takes the slot for (`taken_of` of `new_calls`), that what is to stand beside the slot is the call's, and which calls
//! are cancelled. What applying asks of the tables (`CanTake`) follows from what `kernel_model` says of the kernels of
//! legal histories, which `enter` knows of its core.
//!
//! **An entry, over parts.** A function that lets a processor in says of each kernel for which the parts stood: the
//! parts afterwards stand for the one behind the decision, the entry stands behind the events, and the processor
//! carries the call of its slot. `decision_as` is the decision of the kernel that was decided: of a call that is
//! resumed it names the kernel's own call, which the registers name. That the kernel's entry decides just so, with
//! these reads, is one equation (`IsDecided`). An entry that is prepared (`IsPrepared`) has that, what the call is
//! given that goes on, and all that doing it asks for. Between `prepare` and `admit` the core is as it was, but for
//! room, and what was decided can be read.
//!
//! | Test or case | Kernel's definition | Code |
//! |---|---|---|
//! | a fast call | `decision_of`: `Fast call` | `enter`, `decide`: `Call::Fast(call)`; `enter_at_once` |
//! | a new call | `decision_of`: `WithArg`, `WithRpcArg`, `WithRegdArg`, `new_call` | `enter_prepared`; `decide_new`, with `new_call` of `new_calls` |
//! | a resume | `decision_of`: `Resume`, `resume` | `enter_returning`; `resumed_call`, with `decide` of `resumed_calls` |
//! | an unknown function | `decision_of`: `Unknown` | `enter`, `decide`: `Call::Unknown`; `enter_at_once` |
//! | all reads have at most as many bytes as the core's terms allow, or the entry is refused | `IsTooMuch` of `kernel_state` | `fit`: `if more > most - copied` |
//! | an answer is fixed | `after_decision`: `Answers answer` | `enter_fixed` |
//! | a slot is taken for a new call | `after_decision`: `Takes slot taken`, `cancelled_slots` | `enter_new`, with `enter_with`: `apply`, then `take_slot` |
//! | a call is resumed in its slot | `after_decision`: `Takes slot taken`, `works_on` | `enter_resumed`: `go_on`, with `hand_out` and `resume_call` |
//! | the processor is inside, and the entry is an event | `with_visitor`, `HasEntered` of `kernel_state` | `let_in` |
//! | a test has settled the call, an open with its login | `settled_call`, `settled_open`, `settled_invoke` | `settle`, with `settled_call` and `settled_with` |
//! | open: on a new instance | `opens`: `opens_made` | `open_or_wait`: `None` |
//! | open: on the one that it shares | `opens`: `opens_kept` | `open_or_wait`: `shared.holder` is `None` |
//! | open: that is held | `open_waits`, `waits_in` | `open_or_wait`: `Some(_)`, with `join_line` |
//! | open: its session, also where it waits | `with_session` | `reserve_session` |
//! | invoke | `invokes`, `works_or_waits` | `apply_invoke` |
//! | close | `closes`, `works_or_waits` | `apply_close` |
//! | invoke, close: another call holds the instance | `works_or_waits`: `is_held instance`, `waits_in` | `work_or_wait`: `is_held`, with `join_line` |
//! | open, invoke: the buffers of its parts | `with_pins` | `pin_cookies` |
//! | cancel | `cancels`, `cancelled_slots` | `apply_plan`: `Plan::Cancels`; `take_slot`: `mark_calls` |
//! | a cookie names the argument | `with_argument_pinned` | `apply`: `pin_argument`, then `apply_plan` |
//! | register | `keeps_buffer` | `keep_buffer` |
//! | unregister | `drops_buffer` | `drop_buffer` |
#![tactic(auto)]

mod answering;
mod beginning;
mod buffers;
mod carrying;
mod deciding;
mod entering;
mod filling;
mod fixed;
mod in_session;
mod opening;
mod pinning;
mod plans;
mod preparing;
mod resuming;
mod returning;
mod settling;
mod taking;
mod visitor;
mod waiting;

pub use beginning::enter_new;
pub use carrying::total_bytes;
pub use deciding::{EntryDecision, PlannedCall};
pub use entering::{admit, enter, prepare};
pub use fixed::enter_fixed;
pub use plans::apply;
pub use preparing::Prepared;
pub use resuming::enter_resumed;
pub use visitor::{Visitor, make_room};
