//! A program's command line, and the status that it ends with.
//!
//! No contract speaks of a program's `main`. So what is decided of its words and of its status stands here.
//!
//! It touches the command line of its process, and no RAM, no port and no thread.
//!
//! # What is proved
//!
//! The words behind the program's name, and whether there are any (`words_of`, `HasWords`); what isn't UTF-8 counts as
//! words, and has none that can be read. The status of a program is the one that it came to, and 6 where it had no
//! memory to come so far.
#![tactic(auto)]

mod status;
mod words;

pub use status::exit_status;
pub use words::{CommandLine, read_command_line};
