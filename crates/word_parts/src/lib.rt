//! What every word of the program shares: its input is read to the end, an input that leaves its grammar is answered by
//! one line, lines are gathered before they are put, and a status says how it ended.
//!
//! No word is named here. Each is a value of `InputWord`, which reads in its own grammar and plays in its own way. `read_input` gives
//! what an input spells in a word's grammar, or answers one that isn't served; `run_word` is the call of any word.
//!
//! It touches the source and the sink that it is lent, and no RAM and no thread.
//!
//! # What is proved
//!
//! - `read_whole` gives all bytes that the source had, at most the input limit, or the status of a word where the
//!   source failed, or there are more, or memory ran out.
//! - `read_input` gives what they spell in a word's grammar, with nothing written; or it answers an input that isn't
//!   read whole, or that leaves the grammar.
//! - Lines are put whole, or kept, or the sink failed or memory ran out behind a part of them (`put_lines`,
//!   `put_if_many`, `end_at`); a failed write is one that the sink has counted (`StopTellsFaults`).
//! - `answer_line` gives the named status with the whole line, or WriteFault or Memory with a part of it, and
//!   `answer_fault` so the line of an input that leaves its grammar. `Status::number` gives the number of a status.
//! - The definitions say of each word that reads an input (`Word`) what it comes to, what each status says then, and
//!   which inputs are served or refused whole (`Keeps`); that the one gives the others is proved once, for all such
//!   words.
//! - `run_word` is the call of any of them (`InputWord`), by what its `read` and its `serve` say: it keeps to the word,
//!   and shows what the word shows besides (`KeepsTo`).
#![tactic(auto)]

mod answer;
mod examples;
mod gathering;
mod input;
mod input_word;
mod limits;
mod line;
mod output;
mod status;
mod stop;

pub use answer::{answer_fault, answer_line, refuse, status_after, status_of};
pub use examples::worked_examples;
pub use gathering::{end_at, put_if_many, put_lines};
pub use input::LONGEST_INPUT;
pub use input_word::{InputWord, read_input, run_word};
pub use limits::has_too_many;
pub use line::bad_trace_line;
pub use output::put_text;
pub use status::Status;
pub use stop::Stop;
