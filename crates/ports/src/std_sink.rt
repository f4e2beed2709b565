ghost use Rattle.std.specs.Prelude.{◌≡◌, ◌≢◌, ℕ, ◌<◌, ◌≤◌, IfOk, OnOk, OnErr, length, take};
ghost use Rattle.std.specs.Io.KnownBytes.{Appends, Keeps};
ghost use Rattle.ports.specs.Port.{Rose};
ghost use Rattle.ports.specs.StdSink.{WritesFrom, faults_after_put};

use crate::interruption::{MOST_TRIES, is_interruption};
use crate::sink::{Put, Sink};
use std::io::Write;
use std::marker::Model;

/// A write or a flush failed, or a write took no bytes.
#[derive(Clone, Copy)]
struct Fault;

/// A sink over a writer: the edge to the outside, of whose bytes no contract speaks. A write of 0 bytes
/// is a fault.
///
/// A call writes until the writer has taken all its bytes, and flushes, so that it keeps none of them back
/// after `Done`.
#[derive(Drop)]
pub struct StdSink<W> {
    writer: W,
    faults: u64,
}

impl<W> Model for StdSink<W> {
    ghost use Rattle.ports.specs.StdSink.{Writing};

    ghost Value = { Writing W };

    ghost view = { λ s. record { writer = s.writer; faults = s.faults } };
}

impl<W> StdSink<W> {
    /// A sink that hands its bytes to the writer. Takes no memory.
    pub fn new(writer: W) -> StdSink<W>
        ensures { result ≡ record { writer = writer; faults = 0 } }
    {
        StdSink { writer, faults: 0 }
    }

    /// How many calls have failed. A count that has come to 2^64 - 1 stays there.
    pub fn faults(&self) -> u64
        ensures { result ≡ self.now.faults }
    {
        self.faults
    }
}

impl<W: Write> Sink for StdSink<W> {
    ghost use Rattle.std.specs.Prelude.{None};

    ghost held = { λ s. None };

    ghost faults = { λ s. s.faults };

    fn put(&mut self, bytes: &[u8]) -> Put
        ensures failed { result ≡ Put.Failed → Rose self.old.faults self.new.faults }
        ensures memory { result ≢ Put.Memory }
        ensures count { self.old.faults ≤ self.new.faults }
        ensures stays { result ≢ Put.Failed → self.new.faults ≡ self.old.faults }

        // The count to the last one, and what has come to a writer that tells what it holds.
        ensures faults { self.new.faults ≡ faults_after_put result self.old.faults }
        ensures writer { WritesFrom result (W.contents self.old.writer) (W.contents self.new.writer) bytes.now }
    {
        match write_all(&mut self.writer, bytes) {
            Ok(()) => Put::Done,
            Err(Fault) => {
                self.faults = self.faults.saturating_add(1);
                Put::Failed
            }
        }
    }
}

/// Writes all the bytes, and flushes.
fn write_all<W: Write>(writer: &mut W, bytes: &[u8]) -> Result<(), Fault>
    ensures ok { OnOk result (Appends (W.contents writer.old) (W.contents writer.new) bytes.now) }
    ensures err { OnErr result ((n : ℕ) × Appends (W.contents writer.old) (W.contents writer.new) (take n bytes.now)) }
{
    let mut at = 0;
    while at < bytes.len() {
        at += write(writer, &bytes[at..])?;
    }
    flush(writer)
}

/// One write, of bytes that are not none. An interrupted one is tried again.
fn write<W: Write>(writer: &mut W, bytes: &[u8]) -> Result<usize, Fault>
    requires { 0 < length bytes.now }
    ensures bound { IfOk result (λ n. (0 < n) × (n ≤ length bytes.now)) }
    ensures appended { IfOk result (λ n.
        Appends (W.contents writer.old) (W.contents writer.new) (take n bytes.now)) }
    ensures kept { OnErr result (Keeps (W.contents writer.old) (W.contents writer.new)) }
{
    for _ in 0..MOST_TRIES {
        match writer.write(bytes) {
            Ok(0) => return Err(Fault),
            Ok(count) => return Ok(count),
            Err(error) if is_interruption(&error) => {}
            Err(_) => return Err(Fault),
        }
    }
    Err(Fault)
}

/// One flush. An interrupted one is tried again.
fn flush<W: Write>(writer: &mut W) -> Result<(), Fault>
    ensures { Keeps (W.contents writer.old) (W.contents writer.new) }
{
    for _ in 0..MOST_TRIES {
        match writer.flush() {
            Ok(()) => return Ok(()),
            Err(error) if is_interruption(&error) => {}
            Err(_) => return Err(Fault),
        }
    }
    Err(Fault)
}
