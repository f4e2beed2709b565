//! What the word `notify` prints for the lines of a conversation.

use line_port::Entry;
use native_tas::Natives;
use notify_runner::Notify;
use ports::{MemSink, MemSource};
use std::alloc::{AllocError, Global};
use word_parts::{Status, run_word};

/// The line that ends the answer to a line that was taken.
const TAKEN: &[u8] = b"ok\n";

/// The lines of a conversation that were taken, and what was said for them but `ok`.
#[derive(Drop)]
struct Taken {
    lines: Vec<u8>,
    said: Vec<u8>,
}

/// What stands before the last line of an answer, where that is `ok`.
fn taken_in(said: &[u8]) -> Option<&[u8]> {
    let (before, ending) = said.split_at(said.len().saturating_sub(TAKEN.len()));
    if ending == TAKEN { Some(before) } else { None }
}

impl Taken {
    /// Those of what was heard and said.
    fn of(alloc: Global, log: &[Entry]) -> Result<Taken, AllocError> {
        let mut taken = Taken {
            lines: Vec::new(alloc),
            said: Vec::new(alloc),
        };
        let mut heard: &[u8] = &[];
        for entry in log {
            match entry {
                Entry::Line(line) => heard = line.as_slice(),
                Entry::Said(said) => taken.add(heard, said.as_slice())?,
                Entry::Long | Entry::Cut => {}
            }
        }
        Ok(taken)
    }

    /// Adds a line, if it was taken.
    fn add(&mut self, line: &[u8], said: &[u8]) -> Result<(), AllocError> {
        if let Some(lines) = taken_in(said) {
            self.lines.extend_from_slice(line)?;
            self.lines.push(b'\n')?;
            self.said.extend_from_slice(lines)?;
        }
        Ok(())
    }
}

/// Whether `notify` prints, for the lines of a conversation that were taken, just what was said for them.
pub fn is_as_notified(alloc: Global, natives: &Natives, log: &[Entry]) -> Result<bool, AllocError> {
    let Taken { lines, said } = Taken::of(alloc, log)?;
    let mut source = MemSource::new(lines, Vec::new(alloc));
    let mut sink = MemSink::new(alloc, Vec::new(alloc));
    let status = run_word(alloc, Notify, &mut source, &mut sink, natives);
    Ok(status == Status::Ok && sink.bytes() == said.as_slice())
}
