//! Lines of a reader, each heard as soon as it has come.

ghost use Rattle.std.specs.Prelude.{◌≡◌, ◌≢◌, ◌<◌, ◌≤◌, [], length, take, true, false, Err, IfOk, OnErr};
ghost use Rattle.std.specs.Io.KnownBytes.{Consumes, IsAtEnd, Keeps};
ghost use Rattle.line_port.specs.Gathering.{IsTaken, TakesLine, TakesPart};
ghost use Rattle.line_port.specs.Pending.{left};
ghost use Rattle.ports.specs.Port.{risen};
ghost use Rattle.text_lines.specs.Lines.{Lacks};

use crate::gathering::add_part;
use crate::port::Heard;
use ports::MOST_TRIES;
use std::alloc::{AllocError, Global};
use std::io::{ErrorKind, Read};
use std::marker::Model;
use text_lines::split_line;

/// How many bytes are asked for at once.
const CHUNK_BYTES: usize = 1 << 16;

/// A read failed.
#[derive(Clone, Copy)]
struct ReadFailed;

/// Why no part of a line was taken.
#[derive(Clone, Copy)]
pub(crate) enum Stop {
    /// A read failed, and was counted.
    Fault,
    /// Want of memory.
    NoRoom,
}

impl From<AllocError> for Stop {
    ghost use Rattle.std.specs.Prelude.{◌≡◌};
    ghost use Rattle.line_port.specs.declared.line_reader.Stop.TheVariants.{NoRoom};

    ghost from_gives = { λ _ stop. stop ≡ NoRoom };

    fn from(_refused: AllocError) -> Stop {
        Stop::NoRoom
    }
}

/// What was taken of a line.
#[derive(Clone, Copy)]
pub(crate) enum Part {
    /// Its last bytes, and the line feed that ends it.
    Last,
    /// Some bytes, with no line feed among them.
    Some,
    /// None, since nothing is left.
    None,
}

/// A reader, and what was read of it but not heard. A read gives what is there, and doesn't wait for more.
#[derive(Drop)]
pub(crate) struct LineReader<R: Read> {
    reader: R,
    chunk: Vec<u8>,
    /// Where what is pending begins in the chunk.
    at: usize,
    /// Where it ends.
    end: usize,
    /// How many reads have failed. A count that has come to 2^64 - 1 stays there.
    faults: u64,
}

impl<R: Read> Model for LineReader<R> {
    ghost use Rattle.std.specs.Prelude.{◌≤◌, ◌<◌, ◌-◌, drop, take, length};
    ghost use Rattle.line_port.specs.Pending.{Lines};

    ghost Value = { Lines R };

    ghost view = { λ s. record {
      reader = s.reader;
      pending = take (s.end - s.at) (drop s.at s.chunk.items);
      faults = s.faults;
    } };

    ghost invariant = { λ s. (0 < length s.chunk.items) × (s.at ≤ s.end) × (s.end ≤ length s.chunk.items) };
}

/// A buffer of so many bytes.
fn buffer_of(alloc: Global, count: usize) -> Result<Vec<u8>, AllocError>
    ensures { IfOk result (λ buffer. length buffer.items ≡ count) }
{
    vec![in alloc; 0; count]
}

/// One read. It gives no bytes at the end alone. An interrupted one is tried again.
fn read<R: Read>(reader: &mut R, buf: &mut [u8]) -> Result<usize, ReadFailed>
    requires { 0 < length buf.old }
    ensures bound { IfOk result (λ n. n ≤ length buf.old) }
    ensures moved { IfOk result (λ n.
        Consumes (R.remaining reader.old) (R.remaining reader.new) (take n buf.new)) }
    ensures end { IfOk result (λ n. n ≡ 0 → IsAtEnd (R.remaining reader.new)) }
    ensures kept { OnErr result (Keeps (R.remaining reader.old) (R.remaining reader.new)) }
{
    for _ in 0..MOST_TRIES {
        match reader.read(buf) {
            Ok(count) => return Ok(count),
            Err(error) if error.kind() == ErrorKind::Interrupted => {}
            Err(_) => return Err(ReadFailed),
        }
    }
    Err(ReadFailed)
}

/// Takes what these bytes have of a line, through the line feed that ends it. Says how many bytes were taken.
fn take_from(
    pending: &[u8],
    line: &mut Vec<u8>,
    is_long: &mut bool,
) -> Result<(usize, Part), AllocError>
    ensures bound { IfOk result (λ x. x.0 ≤ length pending.now) }
    ensures some { IfOk result (λ x. x.1 ≢ Part.None) }
    ensures whole { ¬ Lacks 10 pending.now → IfOk result (λ x. x.1 ≡ Part.Last) }
    ensures takes { IfOk result (λ x. IsTaken x.1 (take x.0 pending.now) is_long.old line.old.items is_long.new line.new.items) }
{
    match split_line(pending) {
        Some((part, _)) => {
            add_part(line, is_long, part)?;
            Ok((part.len() + 1, Part::Last))
        }
        None => {
            add_part(line, is_long, pending)?;
            Ok((pending.len(), Part::Some))
        }
    }
}

/// What a line comes to that a line feed has ended.
fn heard_line(is_long: bool) -> Heard
    ensures long { is_long ≡ true → result ≡ Heard.Long }
    ensures line { is_long ≡ false → result ≡ Heard.Line }
{
    if is_long { Heard::Long } else { Heard::Line }
}

/// What a line comes to that the end of the input has ended.
fn heard_end(is_long: bool, is_empty: bool) -> Heard
    ensures long { is_long ≡ true → result ≡ Heard.Long }
    ensures end { is_long ≡ false → is_empty ≡ true → result ≡ Heard.End }
    ensures cut { is_long ≡ false → is_empty ≡ false → result ≡ Heard.Cut }
{
    if is_long {
        Heard::Long
    } else if is_empty {
        Heard::End
    } else {
        Heard::Cut
    }
}

impl<R: Read> LineReader<R> {
    /// Nothing of the reader was read.
    pub(crate) fn new(alloc: Global, reader: R) -> Result<LineReader<R>, AllocError>
    where
        R: Drop,
        ensures { IfOk result (λ lines. lines ≡ record { reader = reader; pending = []; faults = 0 }) }
    {
        Ok(LineReader {
            reader,
            chunk: buffer_of(alloc, CHUNK_BYTES)?,
            at: 0,
            end: 0,
            faults: 0,
        })
    }

    /// Counts a fault of reading.
    fn count_fault(&mut self)
        ensures { self.new ≡ record self.old { faults = risen self.old.faults } }
    {
        self.faults = self.faults.saturating_add(1);
    }

    /// Reads some bytes, where none are pending. Says whether any came.
    fn refill(&mut self) -> Result<bool, Stop>
        requires { self.old.pending ≡ [] }
        ensures kept { Keeps (left R.remaining self.old) (left R.remaining self.new) }
        ensures end { IfOk result (λ some. some ≡ false → IsAtEnd (left R.remaining self.new)) }
        ensures fault { result ≡ Err Stop.Fault → self.new.faults ≡ risen self.old.faults }
        ensures stays { result ≢ Err Stop.Fault → self.new.faults ≡ self.old.faults }
    {
        match read(&mut self.reader, self.chunk.as_mut_slice()) {
            Ok(count) => {
                self.at = 0;
                self.end = count;
                Ok(count > 0)
            }
            Err(ReadFailed) => {
                self.count_fault();
                Err(Stop::Fault)
            }
        }
    }

    /// Takes what is pending of a line, through the line feed that ends it. Where memory is wanting nothing is taken.
    fn take_pending(&mut self, line: &mut Vec<u8>, is_long: &mut bool) -> Result<Part, AllocError>
        ensures takes { IfOk result (λ part. TakesPart part (left R.remaining self.old) (left R.remaining self.new)
            is_long.old line.old.items is_long.new line.new.items) }
        ensures whole { ¬ Lacks 10 self.old.pending → IfOk result (λ part. part ≡ Part.Last) }
        ensures reader { self.new.reader ≡ self.old.reader }
        ensures faults { self.new.faults ≡ self.old.faults }
        ensures kept { OnErr result (self.new.pending ≡ self.old.pending) }
    {
        let (taken, part) = take_from(&self.chunk[self.at..self.end], line, is_long)?;
        self.at += taken;
        Ok(part)
    }

    /// Takes what has come of a line, or waits for some of it. Where a read fails, or memory is wanting, nothing is taken.
    fn take_part(&mut self, line: &mut Vec<u8>, is_long: &mut bool) -> Result<Part, Stop>
        ensures takes { IfOk result (λ part. TakesPart part (left R.remaining self.old) (left R.remaining self.new)
            is_long.old line.old.items is_long.new line.new.items) }
        ensures whole { ¬ Lacks 10 self.old.pending → IfOk result (λ part. part ≡ Part.Last) }
        ensures prompt { ¬ Lacks 10 self.old.pending → self.new.reader ≡ self.old.reader }
        ensures fault { result ≡ Err Stop.Fault → self.new.faults ≡ risen self.old.faults }
        ensures stays { result ≢ Err Stop.Fault → self.new.faults ≡ self.old.faults }
        ensures kept { OnErr result (Keeps (left R.remaining self.old) (left R.remaining self.new)) }
    {
        if self.at == self.end && !self.refill()? {
            return Ok(Part::None);
        }
        Ok(self.take_pending(line, is_long)?)
    }

    /// Takes a line, whose bytes come in place of those that `line` holds. A line that comes in 2^64 - 1 parts counts as a fault of
    /// reading.
    pub(crate) fn next_line(&mut self, line: &mut Vec<u8>) -> Heard
        ensures takes { TakesLine result line.new.items (left R.remaining self.old) (left R.remaining self.new) }
        ensures prompt { ¬ Lacks 10 self.old.pending → self.new.reader ≡ self.old.reader }
        ensures fault { result ≡ Heard.Failed → self.new.faults ≡ risen self.old.faults }
        ensures stays { result ≢ Heard.Failed → self.new.faults ≡ self.old.faults }
    {
        line.clear();
        let mut is_long = false;
        for _ in 0..u64::MAX {
            match self.take_part(line, &mut is_long) {
                Ok(Part::Last) => return heard_line(is_long),
                Ok(Part::Some) => {}
                Ok(Part::None) => return heard_end(is_long, line.is_empty()),
                Err(Stop::Fault) => return Heard::Failed,
                Err(Stop::NoRoom) => return Heard::Memory,
            }
        }
        self.count_fault();
        Heard::Failed
    }
}
