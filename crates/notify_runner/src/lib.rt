//! The word that plays a trace with signals.
//!
//! [`Notify`] reads the text of a trace with signals, plays its steps beside a desk of signals, and puts what that prints. How an
//! input is read whole and how a call of a word is answered stand in `word_parts`. `specs/` has `Run`, which word it is, `Notified`,
//! what is promised of the play where its text was written, and `Starting`, where a player stands before the first step.
//!
//! It touches the source and the sink that it is lent and the RAM of its player, and no thread.
//!
//! # What is proved
//!
//! - `Notify` reads a text trace with signals, plays it, and writes its text as a word of the program does (`Keeps`):
//!   its statuses with what was then written, each input within the limits served whole, and each other refused by its
//!   first fault, or want of memory.
//! - Where the text was written to its end, up to a refused entry where there is one, it is that of the trace's play,
//!   and of this and of the play behind each number of the trace's steps holds what `notify_play` says (`Notifies`).
//!   The history is legal and keeps the kernel's own answers, whatever is signalled; it holds the steps in their order,
//!   and the printed returns are its exits, with the kernel's answer or what the desk makes of it.
//! - A bottom half that comes next calls exactly the drivers that were signalled, while the desk was enabled, since the
//!   last bottom half or stop, each with the number of these signals, at most 2^32 - 1; and these signals are the
//!   trace's.
#![tactic(auto)]

mod steps;
mod word;

pub use word::Notify;
