//! The top call: words and bytes in, bytes and a status out.
//!
//! `run` has each processor of a trace play its items in a thread of its own where the words ask for it; any other words are
//! answered by `run_alone`, which is offered here too. Its contract says what is written for every input, when each status
//! comes, and that what is printed of a trace is its play on the written kernel.
//!
//! It touches the source and the sink that it is lent and the RAM of its processors, and starts threads by `threads`
//! alone.
//!
//! # What is proved
//!
//! - `run`, clause by clause in `docs/proofs.md`: `threads` by `run_on_threads` (`DoesOnThreads`), and any other words
//!   by `run_alone`.
//! - `run_on_threads` reads an input as the word `run` does (`read_input`), plays it by `threads_play` on one core,
//!   whose RAM and boot are those of `run`, and puts the blocks by one call of the sink.
#![tactic(auto)]

mod threads;
mod top_call;

pub use alone_runner::{
    AtEnd, Compared, LONGEST_INPUT, ReadJournal, Status, compare, compare_groups, run_alone,
};
pub use top_call::run;
pub use word_parts::worked_examples;
