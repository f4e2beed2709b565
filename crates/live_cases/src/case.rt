//! A case: a conversation, and what is wanted of it.

use crate::notifying::is_as_notified;
use crate::script::Script;
use crate::side::Side;
use crate::wanderer::Wanderer;
use command_line::CommandLine;
use line_port::{Entry, MemPort};
use live_runner::run;
use native_tas::Natives;
use ports::MemSink;
use std::alloc::{AllocError, Global};

/// A side of a conversation, and what is wanted of what it is answered.
#[derive(Drop)]
pub struct Case {
    name: String,
    line: CommandLine,
    script: Script,
    /// A side that comes in place of the script.
    wanderer: Option<Wanderer>,
    /// All that is to be said.
    wanted: Vec<u8>,
    /// Where in that stands what is wanted behind the last line of the script.
    turn_at: usize,
    /// The calls of the port that fail.
    fails: Vec<u64>,
    /// Those of the sink of a usage line.
    failing_puts: Vec<u32>,
    is_notified: bool,
}

/// What was said.
fn said_in(alloc: Global, log: &[Entry]) -> Result<Vec<u8>, AllocError> {
    let mut text = Vec::new(alloc);
    for entry in log {
        match entry {
            Entry::Said(said) => text.extend_from_slice(said.as_slice())?,
            Entry::Line(_) | Entry::Long | Entry::Cut => {}
        }
    }
    Ok(text)
}

/// The number of the first line in which two texts differ, from 1, or of the last one of the shorter.
fn differing_line(one: &[u8], other: &[u8]) -> u64 {
    let mut number = 1u64;
    for (byte, wanted) in one.iter().zip(other.iter()) {
        if byte != wanted {
            return number;
        }
        if *byte == b'\n' {
            number = number.saturating_add(1);
        }
    }
    number
}

/// The word of a status.
fn word_of(status: u8) -> &'static str {
    match status {
        0 => "over",
        2 => "usage",
        4 => "read_fault",
        5 => "write_fault",
        6 => "memory",
        _ => "otherwise",
    }
}

/// A program's name, and behind it the words of a text.
fn command_line(alloc: Global, words: &str) -> Result<CommandLine, AllocError> {
    let mut arguments = Vec::new(alloc);
    arguments.push(String::from_str(alloc, "optee_live")?)?;
    for word in words.split_whitespace() {
        arguments.push(String::from_str(alloc, word)?)?;
    }
    Ok(CommandLine::Text(arguments))
}

impl Case {
    /// A case of this name without words, with a side that says nothing.
    pub fn new(alloc: Global, name: &str) -> Result<Case, AllocError> {
        Ok(Case {
            name: String::from_str(alloc, name)?,
            line: command_line(alloc, "")?,
            script: Script::new(alloc),
            wanderer: None,
            wanted: Vec::new(alloc),
            turn_at: 0,
            fails: Vec::new(alloc),
            failing_puts: Vec::new(alloc),
            is_notified: false,
        })
    }

    /// The side says this line, and the input ends within it where it is cut.
    pub fn push_line(&mut self, line: Vec<u8>, is_cut: bool) -> Result<(), AllocError> {
        self.turn_at = self.wanted.len();
        self.script.push_line(line, is_cut)
    }

    /// The side says this line as long as the last answer has this word.
    pub fn push_while(&mut self, alloc: Global, word: &str, line: &str) -> Result<(), AllocError> {
        self.turn_at = self.wanted.len();
        let word = Vec::from_slice(alloc, word.as_bytes())?;
        let line = Vec::from_slice(alloc, line.as_bytes())?;
        self.script.push_while(word, line)
    }

    /// The side chooses so many lines by what it is answered.
    pub fn wander(&mut self, alloc: Global, cpus: u32, turns: u32, seed: u32) {
        self.wanderer = Some(Wanderer::new(alloc, cpus, turns, seed));
    }

    /// This call of the port fails, counted from 0.
    pub fn fail(&mut self, call: u32) -> Result<(), AllocError> {
        self.fails.push(u64::from(call))?;
        Ok(())
    }

    /// The call of the sink fails.
    pub fn fail_put(&mut self) -> Result<(), AllocError> {
        self.failing_puts.push(0)?;
        Ok(())
    }

    /// The command line has these words.
    pub fn say_words(&mut self, alloc: Global, words: &str) -> Result<(), AllocError> {
        self.line = command_line(alloc, words)?;
        Ok(())
    }

    /// The command line isn't UTF-8.
    pub fn say_no_text(&mut self) {
        self.line = CommandLine::NotText;
    }

    /// This line is to be said next.
    pub fn want(&mut self, line: &str) -> Result<(), AllocError> {
        self.wanted.extend_from_slice(line.as_bytes())?;
        self.wanted.push(b'\n')?;
        Ok(())
    }

    /// The last line is said so many times more, and as often is to be said what was wanted behind it.
    pub fn again(&mut self, alloc: Global, more: u32) -> Result<(), AllocError> {
        self.script.again(more);
        let at = self.turn_at.min(self.wanted.len());
        let behind = Vec::from_slice(alloc, &self.wanted.as_slice()[at..])?;
        for _ in 0..more {
            self.wanted.extend_from_slice(behind.as_slice())?;
        }
        Ok(())
    }

    /// What is wanted behind the last line of the side is to be said so many times in all.
    pub fn times(&mut self, alloc: Global, count: u32) -> Result<(), AllocError> {
        let at = self.turn_at.min(self.wanted.len());
        let behind = Vec::from_slice(alloc, &self.wanted.as_slice()[at..])?;
        for _ in 1..count {
            self.wanted.extend_from_slice(behind.as_slice())?;
        }
        Ok(())
    }

    /// What is said is compared with what `notify` prints, too.
    pub fn notify(&mut self) {
        self.is_notified = true;
    }

    /// Holds the conversation, which is to end with this word, and says what came of it. What a side that wanders is answered is
    /// compared with what `notify` prints alone.
    pub fn verdict(
        self,
        alloc: Global,
        natives: &Natives,
        wanted_end: &str,
    ) -> Result<String, AllocError> {
        let Case {
            name,
            line,
            script,
            wanderer,
            wanted,
            turn_at: _turn_at,
            fails,
            failing_puts,
            is_notified,
        } = self;
        let is_told = wanderer.is_none();
        let side = match wanderer {
            Some(wanderer) => Side::Wandering(wanderer),
            None => Side::Scripted(script),
        };
        let mut port = MemPort::new(alloc, side, fails);
        let mut sink = MemSink::new(alloc, failing_puts);
        let end = word_of(run(alloc, &line, natives, &mut port, &mut sink));
        let mut said = said_in(alloc, port.log())?;
        said.extend_from_slice(sink.bytes())?;
        if end != wanted_end {
            return format!(in alloc; "{name} ends otherwise: {end}");
        }
        if is_told && said.as_slice() != wanted.as_slice() {
            let line = differing_line(said.as_slice(), wanted.as_slice());
            return format!(in alloc; "{name} says something else in line {line}");
        }
        if is_notified && !is_as_notified(alloc, natives, port.log())? {
            return format!(in alloc; "{name} says something else than notify prints");
        }
        format!(in alloc; "{name} ok")
    }
}
