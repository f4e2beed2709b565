//! The other side of a conversation.

use crate::script::Script;
use crate::wanderer::Wanderer;
use line_port::{Next, OtherSide};
use std::alloc::AllocError;
use text_lines::split_line;

/// A side of one of two kinds.
#[derive(Drop)]
pub enum Side {
    /// It says the lines of a script.
    Scripted(Script),
    /// It chooses its lines by what it is answered.
    Wandering(Wanderer),
}

/// The first line of an answer, which is the whole of it where no line feed ends it.
fn first_line(answer: &[u8]) -> &[u8] {
    match split_line(answer) {
        Some((line, _)) => line,
        None => answer,
    }
}

impl OtherSide for Side {
    fn next(&mut self, said: &[u8], line: &mut Vec<u8>) -> Result<Next, AllocError> {
        match self {
            Side::Scripted(script) => script.say(first_line(said), line),
            Side::Wandering(wanderer) => wanderer.say(said, line),
        }
    }
}
