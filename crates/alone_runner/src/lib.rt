//! The top call without threads: words and bytes in, bytes and a status out.
//!
//! `run_alone` reads a trace from a source, plays it on one core in the order of its items, and writes its lines to a sink; or
//! it assembles a text, sums up the play of a trace that is made of a number, or calls the words of other crates.
//! Its contract says what is written for every input, when each status comes, and that what is printed of a trace is its play
//! on the written kernel. It starts no thread and waits for none, and nothing that it stands on knows of any.
//!
//! It touches the source and the sink that it is lent and the RAM of its player, and no thread.
//!
//! # What is proved
//!
//! - `run_alone`, whose clauses are those of `run` in `docs/proofs.md`: by one statement on the command that the words
//!   ask for (`DoesAlone`). `run_command` does what a command says: for `run`, `run-binary` and `asm`, whose word is
//!   `Serve`, and for those of `journal_runner`, `notify_runner` and `client_runner` it is one call of `run_word`.
//! - `read_content` reads an input in its grammar as a trace or an image, or answers its first fault. A core can be
//!   booted with what was read (`CanBePlayed`).
//! - `play_items` puts the lines of a player's items, gathered: behind each item what was put and what is gathered is
//!   the text of the items so far.
//! - `digest_play` plays a trace to its end, and gives the counts of its answers and the SHA-256 of its text, of which
//!   it keeps the lines of one item at a time; `summary_line` is the definition's line of a history and a digest.
#![tactic(auto)]

mod at_end;
mod command;
mod content;
mod digesting;
mod gathering;
mod line;
mod play;
mod serving;
mod summary;
mod top_call;
mod work;

pub use at_end::AtEnd;
pub use command::Grammar;
pub use content::Content;
pub use journal_runner::{Compared, ReadJournal, compare, compare_groups};
pub use serving::Serve;
pub use top_call::run_alone;
pub use word_parts::{LONGEST_INPUT, Status};
