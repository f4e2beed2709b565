//! All processors of a trace, each with a thread of its own, on one core that they share.
//!
//! One processor's work is its items of the trace, one after the other, and the block of lines that they print. Entries and exits are
//! those of `normal_cpus`, each under one turn; the steps of an application and what a pace does come between two turns. Contracts
//! say what the processor has come to by its part of the history that its pass has seen.
//!
//! Work for which no thread can be started is done by the caller, under the same promise. Once all passes are back, the core has the
//! one history of all, of which the parts are one play.
//!
//! It starts threads, and touches the lanes of the processors and the core that they share, and no source and no sink.
//!
//! # What is proved
//!
//! `play_on_threads` needs a core with no events that keeps those to come, as many lanes as processors, and that each
//! processor comes in and goes out by turns. It gives back, or finds no memory:
//! - the core, with its boot, and the one history of all, which is legal;
//! - where the core was booted as a trace says, the processors' items are the trace's, and each lane has its fills over
//!   zeros: the text is the blocks of the trace in an order that is that history with refused entries at their places.
//!   The play in that order has that history, and an entry of it was refused just where that is said.
//!
//! One processor's own items, on a core that it shares, are played by `play_cpu`. It needs a pass that has made
//! nothing, and that the processor comes in and goes out by turns, within the limits of a trace. It gives back
//! - the pass, which is outside, has the same number, and has seen all that it had seen;
//! - where all items are done: they are the processor's part of the history that the pass has then seen, and the RAM
//!   and the block are what that part comes to, each line of an exit with the places of its entry and of itself;
//! - where an entry was refused: the items before it are the part, the entry is refused at the end of that history, and
//!   the block ends with `full`, the bytes that all entries of that history have read, and those that this one would
//!   have read;
//! - where there was no memory: nothing of RAM and block. What was begun is ended all the same.
//!
//! Of the work of all processors of a trace:
//! - Each processor of a trace within its limits comes in and goes out by turns (`sound_traces_are_in_turn`), as
//!   `play_cpu` needs.
//! - How the work of a processor has ended by what its pass has seen, not for want of memory, holds of each history
//!   that the pass is in, as that of a closed core is (`ends_stay`); so does how the work of all has ended, by their
//!   numbers (`ends_gather`).
//! - Where the work of all has ended over one legal history, whose entries stay within the read limit, what was printed
//!   are the blocks of the trace, one behind the other, in the order of that history, with each refused entry at the
//!   end of what its pass had seen (`ends_merge`). So it is on a core that is had back (`ends_are_played`).
//!
//! Not proved: that either call ever returns, since a turn may not come, and that memory is found; that any thread is
//! started, since the caller may do all work.
//!
//! # Definitions
//!
//! - `place_by`, `place_of`, `places_of` (`Ended`): a refused entry comes at the end of what its pass had seen
//! - `CanPlay`, `HasPlayed` (`Work`): one processor's pass and RAM, and what came back of them
//! - `StandsAt` (`Standing`): a player writes and shows RAM at once, and a part of a history does so up to its
//!   processor's next entry or exit, so the part is said to stand where the player will stand once it has done that
//!   (`ready_for`)
#![tactic(auto)]

mod cpu_playing;
mod ending;
mod ends;
mod items;
mod jobs;
mod laws;
mod lines;
mod player;
mod playing;
mod threads;

pub use cpu_playing::play_cpu;
pub use ending::CpuEnd;
pub use laws::{ends_are_played, ends_gather, ends_merge, ends_stay, sound_traces_are_in_turn};
pub use playing::{ThreadsPlay, play_on_threads};
