//! A side that says the lines of a script.

use line_port::Next;
use std::alloc::{AllocError, Global};
use text_lines::Words;

/// The most times that a line is said again, whatever is answered.
const MOST_TIMES: u32 = 10_000;

/// The most words that are looked at in an answer.
const MOST_WORDS: u32 = 16;

/// How a line is said.
#[derive(Drop)]
enum Saying {
    /// So many times.
    Times(u32),
    /// As long as the first line of the last answer has this word.
    While(Vec<u8>),
    /// Once, and the input ends within it.
    Cut,
}

/// A line of a script.
#[derive(Drop)]
struct Move {
    line: Vec<u8>,
    saying: Saying,
}

/// The lines of a side, as far as they are said.
#[derive(Drop)]
pub struct Script {
    moves: Vec<Move>,
    at: usize,
    /// How often the line there was said.
    count: u32,
}

/// A word of a line by its number, from 0, and no bytes where there is none.
fn word_at(line: &[u8], number: u8) -> &[u8] {
    let mut words = Words::of(line);
    for _ in 0..number {
        let _before = words.next_word();
    }
    words.next_word().unwrap_or(&[])
}

fn has_word(line: &[u8], word: &[u8]) -> bool {
    let mut words = Words::of(line);
    for _ in 0..MOST_WORDS {
        match words.next_word() {
            Some(found) if found == word => return true,
            Some(_) => {}
            None => return false,
        }
    }
    false
}

/// Appends a line, in which `{N}` stands for word N of an answer.
fn push_filled(text: &mut Vec<u8>, line: &[u8], answer: &[u8]) -> Result<(), AllocError> {
    let mut is_field = false;
    for byte in line {
        match (*byte, is_field) {
            (b'{', false) => is_field = true,
            (b'}', true) => is_field = false,
            (digit, true) => text.extend_from_slice(word_at(answer, digit.wrapping_sub(b'0')))?,
            (other, false) => text.push(other)?,
        }
    }
    Ok(())
}

impl Script {
    /// No line.
    pub fn new(alloc: Global) -> Script {
        Script {
            moves: Vec::new(alloc),
            at: 0,
            count: 0,
        }
    }

    /// Adds a line that is said once, and within which the input ends where it is cut.
    pub fn push_line(&mut self, line: Vec<u8>, is_cut: bool) -> Result<(), AllocError> {
        let saying = if is_cut {
            Saying::Cut
        } else {
            Saying::Times(1)
        };
        self.moves.push(Move { line, saying })?;
        Ok(())
    }

    /// Adds a line that is said as long as an answer has a word.
    pub fn push_while(&mut self, word: Vec<u8>, line: Vec<u8>) -> Result<(), AllocError> {
        let saying = Saying::While(word);
        self.moves.push(Move { line, saying })?;
        Ok(())
    }

    /// The last line is said so many times more.
    pub fn again(&mut self, more: u32) {
        if let Some(last) = self.moves.last_mut() {
            if let Saying::Times(times) = &mut last.saying {
                *times = times.saturating_add(more);
            }
        }
    }

    /// Whether the line there is still to be said, where the first line of the last answer is this.
    fn is_due(&self, answer: &[u8]) -> bool {
        match self.moves.get(self.at) {
            None => true,
            Some(here) => match &here.saying {
                Saying::Times(times) => self.count < *times,
                Saying::While(word) => {
                    self.count < MOST_TIMES && has_word(answer, word.as_slice())
                }
                Saying::Cut => self.count == 0,
            },
        }
    }

    /// Goes on to the line that is due, where the first line of the last answer is this.
    fn go_on(&mut self, answer: &[u8]) {
        for _ in 0..self.moves.len() {
            if self.is_due(answer) {
                return;
            }
            self.at = self.at.saturating_add(1);
            self.count = 0;
        }
    }

    /// Says the next line, where the first line of the last answer is this.
    pub fn say(&mut self, answer: &[u8], line: &mut Vec<u8>) -> Result<Next, AllocError> {
        self.go_on(answer);
        let Some(here) = self.moves.get(self.at) else {
            return Ok(Next::Over);
        };
        push_filled(line, here.line.as_slice(), answer)?;
        self.count = self.count.saturating_add(1);
        Ok(match &here.saying {
            Saying::Cut => Next::Cut,
            Saying::Times(_) | Saying::While(_) => Next::Line,
        })
    }
}
