//! A core that its processors share: it stands behind a lock, and each processor has a pass.
//!
//! A call of the normal world is served in two halves, each under one turn of the lock: `enter`, and `leave`. What the
//! application does between them is `Work::run`, which knows neither core nor lock, so that other processors come and go
//! meanwhile. No call of this crate does both halves.
//!
//! A pass knows the history that it has seen, which is legal from the boot of the core that was shared, and of its own
//! processor it has all events. So at an exit nothing has to be asked: only others have come and gone since the entry.
//!
//! It touches the shared core, each call under one turn, and the lane that it is lent, and starts no thread.
//!
//! # What is proved
//!
//! Over every interleaving of the processors of a core behind the lock. *Legal* means: from the boot of the core that
//! was shared.
//! - All entries that a pass has seen have read at most the read limit together, behind each call.
//! - `share` gives a pass for each processor, in the order of their numbers, which have seen nothing and made nothing,
//!   or want of memory and the core.
//! - `enter` makes one entry, under one turn: the pass has then seen a legal history that begins with all that it had
//!   seen and ends with this entry, whose reads have the lane's bytes; the work shows the call of that history's
//!   kernel, with none of the granted steps done. `Full` comes exactly where this entry would pass the read limit,
//!   unless memory is wanting first.
//! - `leave` makes one exit, under one turn, as the last event of such a history, at `exit_at`: registers and writes
//!   are those of the kernel's exit there. The entry that it ends stands at `entry_at`, and no event of its processor
//!   between the two. It asks nothing of the core: that the pass's work still fits follows from what the pass has seen.
//! - Behind each, a refused entry too, the pass has neither a turn nor a ticket, and what it has seen holds of its
//!   processor just the events that it made, in their order, each once. A refused entry makes none; the pass has then
//!   seen a legal history that begins with all that it had seen, and the numbers of `Full` are the bytes which that
//!   history's entries have read, and those that this entry would add.
//! - `close` needs all passes, each once. The core that comes back has the boot of the one that was shared; its events
//!   are legal, begin with all that each pass has seen, and are of each processor just those that its pass made, and no
//!   others.
//! - `works_go_out`: the work of an entry, with its granted steps done, is one that `leave` takes.
//! - Not proved: that a turn comes, and any order in time between processors beyond what their passes have seen.
//!
//! # Definitions
//!
//! `HasCome` and `GoesOut` say of a pass what `HasEntered` and `HasLeft` of `kernel_state` say of a core. A pass has no
//! core, but the history that it has seen; that it is legal from the boot of the core that was shared is said of both
//! halves, so that all laws of legal histories speak of it.
#![tactic(auto)]

mod cpu_answer;
mod entering;
mod laws;
mod leaving;
mod shared_core;
mod sharing;

pub use cpu_answer::CpuAnswer;
pub use laws::works_go_out;
pub use ports::{NoPace, Pace};
pub use shared_core::{CpuPass, SharedCore};
pub use sharing::share;
