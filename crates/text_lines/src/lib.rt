//! Lines of a text, and the words of a line, which the text form of traces and the language of the assembler share.
//!
//! It touches no RAM, no port and no thread.
//!
//! # What is proved
//!
//! `split_line` cuts a text at its first line feed, and answers None exactly where there is none; `Words` is the list
//! of the words that are left of a line: each call says what it takes and what is left then, also where there is no
//! such word.
#![tactic(auto)]

mod examples;
mod lines;
mod words;

pub use examples::worked_examples;
pub use lines::{is_skipped, split_line};
pub use words::Words;
