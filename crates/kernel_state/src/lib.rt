//! The state that an entry and an exit work on, and what it stands for.
//!
//! A `Core` is what it was booted with and its events: contracts see it so, by `booted_of` and `events_of`. Its kernel
//! is what those events make of the first one; "The meaning of a core", below, says how its parts stand for that
//! kernel.
//!
//! It touches no RAM, no port and no thread: the steps of an application work on its pages alone.
//!
//! # What is proved
//!
//! - `Core::boot` gives a core of that boot and those built-in applications with no events, which keeps those that
//!   come, and whose entries may read up to the read limit, 2^28 bytes; `boot_on` gives one on other terms. Both answer
//!   `Repeated` exactly where a UUID stands twice, with the first that an earlier application or a built-in one has.
//! - Each core's events, kept or counted, are a legal history from what it was booted with.
//! - Each read has at least one byte and lies in RAM, and those of one entry agree; all have at most as many bytes
//!   together as the core's terms allow.
//! - How many events there were, how many bytes they read, and the last entry of a processor are told of kept and of
//!   counted events; `journal` lends the events where they are kept.
//! - The free slots, the free pages and whether a processor is inside are those of the kernel that the events come to.
//! - `Work::run` takes the call that runs on by exactly the granted steps, in one grant of `rpc_cont`, and leaves one
//!   that rests as it is; `cont` shows the call that runs, and None where there is none.
//! - `mark_calls` marks just the calls of a session that have a number, those that a processor works on among them.
//!   `is_kept`, `is_held` and `is_dead` of `Tables` say of a number just what the kernel's instances do.
//! - `Blanks` gives boxes in which nothing of a call is left, whatever call was in them, and no memory of one: neither
//!   open objects nor the lists of its places; each has the key that it is taken for. Contracts see how many are kept
//!   and for how many there is room, and the box of a call that has finished is kept where there is room for it.
//! - `Leaving::of` gives what the kernel's call goes out with (`leaving_of` of `kernel_model`), for each call that the
//!   data stands for: its application still runs, it wants a place, it asks for this at its place, it gives its buffer
//!   back, or it has finished. A place is its buffer, or its area with its buffer where a payload needs one.
//!
//! The contract of an entry (`Enters`) is met by `enter` of `kernel_entry`, that of an exit (`HasLeft`) by `leave` of
//! `kernel_exit`. What the two say, over all cores:
//! - `journals_stay_legal`: each core's events are a legal history, whose reads are as said above; an entry's processor
//!   could come in, and the kernel is then the one after its entry; an exit is the kernel's, and the kernel is then the
//!   one after it.
//! - `work_stays`: the entries and exits of other processors, however many, leave a processor's work, and its run, its
//!   own; and `work_can_leave`: the work of an entry, with its granted steps done, can leave, whatever others have done
//!   meanwhile. `work_stays_onward`: the same of a history and one that goes on from it, where no core is at hand.
//! - `entries_stand_at_their_places`: the place that a work names is that of its entry among the events, with its
//!   registers, steps and reads, and its run names the same, whatever others have done meanwhile.
//! - `fixed_answers_pass`: an answer that is fixed at an entry changes its processor's part alone, and nothing is
//!   carried; whatever others do meanwhile, the processor goes out with just that answer, and nothing is written; where
//!   the exit comes next, the kernel is as it was.
//! - `answers_come_exactly`: ETHREAD_LIMIT is fixed exactly where a new call finds no slot free, that is where
//!   `Core::free_slots` tells 0, and ERESUME exactly where a return from RPC finds no call.
//! - `returns_continue`: a return from RPC continues the call that is suspended in the slot that its registers name,
//!   for the client that they name, just as the last exit from that slot left it, but that it may have been cancelled
//!   since. Where there is none, ERESUME is fixed, and nothing of the kernel changes but the processor's part.
//!
//! # Definitions
//!
//! - `IsCall` (`Calls`), a call as data beside one of the kernel: one that has a result asks at most to wake a slot
//! - `Agree`, `ReadsAgree` (`Reads`): two reads of one address in one entry have one byte there
//! - `running_call`, `CanBeGranted` (`Carried`): a call that waits isn't shown
//! - `Enters` (`Entering`), the contract of an entry: an entry that would read more bytes with those before than the
//!   terms allow leaves boot, terms and events as they were
//! - `HasLeft` (`Leaving`), the contract of an exit: the lane has the exit's writes, and no other byte changes
//! - `ChangedByOthers`, `GoesOnByOthers` (`Laws`): between a core and the one after processor 1 came in, only others
//!   than processor 0 have come and gone
//!
//! **The meaning of a core.** A core is what it was booted with and its events. `Replays` is a fact of the type, so a
//! core that breaks it can't be made: it was booted within the limits and with no UUID twice, its events come to a
//! kernel, so that they are a legal history, and its parts (`Parts`) stand for that kernel. They do so table by table
//! (`StandsFor`):
//! - the tables are the kernel's, as `tables_of` gives them, and the processors, each as `processor_of` gives it;
//! - of an active slot the parts have its processor and what stands beside it, and of a suspended one, in `IsCall`, the
//!   call as data beside that;
//! - the free pages are those of the pool;
//! - each processor that is inside has room for its exit in the journal.
//!
//! **Its terms** (`Terms`) say whether its events are kept as data, or counted and let go of, and how many bytes its
//! entries may read, at most 2^63. They are no part of what it was booted with, since nothing that it answers depends
//! on them but where an entry is refused. The core's meaning is its past in both cases: its events are a list, and a
//! function of the core, and each entry and each exit says what has come behind it. Whether a program could read that
//! past is a fact of its terms: `journal` lends it where it is kept, and asks for that.
//!
//! **What is carried.** A call that a processor works on is out with it, in a `Work` before its granted steps and in a
//! `Ran` behind them. `IsWorkOf` says that a work fits a kernel: its processor is inside, with as many steps granted,
//! and the call is the one that the kernel has in that processor's slot, but for its mark, which stands beside the
//! slot. `IsRanFor` says the same of a `Ran`, by some work that it is the run of. What other processors do leaves both
//! true (`work_stays`), since it leaves the processor's part and its call as they are, but for a mark.
//!
//! **The laws** (`src/laws.rt`) are of every core that meets the two contracts: a `CoreEntry` is an entry that meets
//! its contract, with the kernels that the core before it and the core after it come to, and a `CoreExit` the same of
//! an exit. `ChangedByOthers` is what may happen between an entry and its exit: any entries and exits of other
//! processors, in any order. That a work or its run fits (`HasWork`, `CanLeave`) is a bare fact, in `∥ .. ∥₁`, since
//! the fact that a core keeps of its own calls is one. Both are said of a boot and a history (`HasWorkAfter`,
//! `CanLeaveAfter`), and of a core by its own. So whoever knows only a beginning of a core's events can say them too,
//! and `GoesOnByOthers` is what may come behind it.
#![tactic(auto)]

mod blanks;
mod boot_fault;
mod booting;
mod cancellation;
mod carried;
mod enter_refusal;
mod kernel_core;
mod laws;
mod leaving;
mod logging;
mod parts;
mod processor;
mod reading;
mod repeats;
mod running;
mod setup;
mod shared_app;
mod tables;
mod terms;
mod work;

pub use blanks::Blanks;
pub use boot_fault::BootFault;
pub use cancellation::{Cancellation, mark_calls};
pub use carried::Carried;
pub use enter_refusal::EnterRefusal;
pub use kernel_core::Core;
pub use laws::{
    answers_come_exactly, entries_stand_at_their_places, fixed_answers_pass, journals_stay_legal,
    returns_continue, work_can_leave, work_stays, work_stays_onward,
};
pub use leaving::{Leaving, Wanted};
pub use logging::CoreBasis;
pub use parts::Parts;
pub use processor::{Errand, Processor};
pub use setup::{Application, Setup};
pub use shared_app::SharedApp;
pub use ta_isa::{App, Boot};
pub use tables::Tables;
pub use terms::Terms;
pub use work::{Ran, Work};
