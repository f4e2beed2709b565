ghost use Rattle.std.specs.Prelude.{◌≡◌, ◌≢◌, ℕ, ◌<◌, ◌≤◌, IsNone, IsSome, IfSome, IfOk, OnErr, Some, None, Err, length, take};
ghost use Rattle.std.specs.Io.KnownBytes.{Consumes, IsAtEnd, Keeps};
ghost use Rattle.ports.specs.Port.{IfBytes, Rose};
ghost use Rattle.ports.specs.StdSource.{ReadsInto, StopsShort, after_stop, answer_of_stop, faults_after_take};

use crate::interruption::{MOST_TRIES, is_interruption};
use crate::source::{Source, Taken};
use std::io::Read;
use std::marker::Model;

/// Why a reader stopped.
#[derive(Clone, Copy)]
pub enum Stop {
    /// A read gave no bytes.
    End,
    /// A read failed.
    Fault,
}

/// A source over a reader: the edge to the outside, of whose bytes no contract speaks. A read of 0 bytes
/// is the end.
///
/// A call reads until its buffer is full, or the reader stops. Where it stops with bytes read, the call
/// gives these, and the next call answers why it stopped, without a read. An empty buffer is `End`, and
/// changes nothing.
#[derive(Drop)]
pub struct StdSource<R: Read> {
    reader: R,
    faults: u64,
    /// Why the reader stopped, where no call has answered it yet.
    stopped: Option<Stop>,
}

impl<R: Read> Model for StdSource<R> {
    ghost use Rattle.std.specs.Prelude.{◌≡◌, Some};
    ghost use Rattle.std.specs.Io.KnownBytes.{IsAtEnd};
    ghost use Rattle.ports.specs.declared.std_source.Stop.TheVariants.{End};
    ghost use Rattle.ports.specs.StdSource.{Reading};

    ghost Value = { Reading R };

    ghost view = { λ s. record { reader = s.reader; faults = s.faults; stopped = s.stopped } };

    ghost invariant = { λ s. s.stopped ≡ Some End → IsAtEnd (R.remaining s.reader) };
}

impl<R: Read> StdSource<R> {
    /// A source of what the reader gives. Takes no memory.
    pub fn new(reader: R) -> StdSource<R>
        ensures { result ≡ record { reader = reader; faults = 0; stopped = None } }
    {
        StdSource {
            reader,
            faults: 0,
            stopped: None,
        }
    }

    /// How many calls have failed. A count that has come to 2^64 - 1 stays there.
    pub fn faults(&self) -> u64
        ensures { result ≡ self.now.faults }
    {
        self.faults
    }

    /// Answers why the reader stopped, and counts a fault.
    fn answer(&mut self, stop: Stop) -> Taken
        ensures answer { result ≡ answer_of_stop stop }
        ensures after { self.new ≡ record self.old { faults = faults_after_take result self.old.faults } }
    {
        match stop {
            Stop::End => Taken::End,
            Stop::Fault => {
                self.faults = self.faults.saturating_add(1);
                Taken::Failed
            }
        }
    }
}

impl<R: Read> Source for StdSource<R> {
    ghost use Rattle.std.specs.Prelude.{None};

    ghost left = { λ s. None };

    ghost faults = { λ s. s.faults };

    fn take(&mut self, buf: &mut [u8]) -> Taken
        ensures bytes { IfBytes result (λ n. (0 < n) × (n ≤ length buf.old)) }
        ensures failed { result ≡ Taken.Failed → Rose self.old.faults self.new.faults }
        ensures count { self.old.faults ≤ self.new.faults }
        ensures stays { result ≢ Taken.Failed → self.new.faults ≡ self.old.faults }

        // The count to the last one, and what is gone from a reader that tells what it has left.
        ensures faults { self.new.faults ≡ faults_after_take result self.old.faults }
        ensures reader { ReadsInto result (R.remaining self.old.reader) (R.remaining self.new.reader) buf.new }

        // Where the reader stopped before, the call answers why, and reads nothing.
        ensures empty { length buf.old ≡ 0 → (result ≡ Taken.End) × (self.new ≡ self.old) }
        ensures answers { 0 < length buf.old → IfSome self.old.stopped (λ stop.
            (result ≡ answer_of_stop stop) × (self.new ≡ after_stop self.old stop)) }
        ensures stops { 0 < length buf.old → StopsShort result (length buf.old) self.new.stopped }
    {
        if buf.is_empty() {
            return Taken::End;
        }
        match self.stopped.take() {
            Some(stop) => self.answer(stop),
            None => match fill(&mut self.reader, buf) {
                (0, Some(stop)) => self.answer(stop),
                (count, stop) => {
                    self.stopped = stop;
                    Taken::Bytes(count)
                }
            },
        }
    }
}

/// Reads until the buffer is full or the reader stops: how many bytes were read, and why it stopped.
fn fill<R: Read>(reader: &mut R, buf: &mut [u8]) -> (usize, Option<Stop>)
    ensures bound { result.0 ≤ length buf.old }
    ensures moved { Consumes (R.remaining reader.old) (R.remaining reader.new) (take result.0 buf.new) }
    ensures full { IsNone result.1 → result.0 ≡ length buf.old }
    ensures short { IsSome result.1 → result.0 < length buf.old }
    ensures end { result.1 ≡ Some Stop.End → IsAtEnd (R.remaining reader.new) }
{
    let mut at = 0;
    while at < buf.len() {
        match read(reader, &mut buf[at..]) {
            Ok(count) => at += count,
            Err(stop) => return (at, Some(stop)),
        }
    }
    (at, None)
}

/// One read, into a buffer that is not empty. An interrupted one is tried again.
fn read<R: Read>(reader: &mut R, buf: &mut [u8]) -> Result<usize, Stop>
    requires { 0 < length buf.old }
    ensures bound { IfOk result (λ n. (0 < n) × (n ≤ length buf.old)) }
    ensures moved { IfOk result (λ n.
        Consumes (R.remaining reader.old) (R.remaining reader.new) (take n buf.new)) }
    ensures end { result ≡ Err Stop.End → IsAtEnd (R.remaining reader.new) }
    ensures kept { OnErr result (Keeps (R.remaining reader.old) (R.remaining reader.new)) }
{
    for _ in 0..MOST_TRIES {
        match reader.read(buf) {
            Ok(0) => return Err(Stop::End),
            Ok(count) => return Ok(count),
            Err(error) if is_interruption(&error) => {}
            Err(_) => return Err(Stop::Fault),
        }
    }
    Err(Stop::Fault)
}
