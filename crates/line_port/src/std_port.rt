ghost use Rattle.std.specs.Prelude.{◌≡◌, ◌≢◌, ℕ, ◌≤◌, [], None, IfOk, length, take};
ghost use Rattle.line_port.specs.Edge.{left_at, told_at};
ghost use Rattle.line_port.specs.Faults.{faults_behind, no_faults};
ghost use Rattle.line_port.specs.Finish.{finish_of_heard, finish_of_said};
ghost use Rattle.line_port.specs.Gathering.{TakesLine};
ghost use Rattle.line_port.specs.History.{Says};
ghost use Rattle.line_port.specs.SayingOut.{WritesOut};
ghost use Rattle.line_port.specs.Told.{Happens, HearsAs};
ghost use Rattle.text_lines.specs.Lines.{Lacks};

use crate::finish::Finish;
use crate::line_reader::LineReader;
use crate::port::{Heard, Port, Said};
use ports::{Put, Sink, StdSink};
use std::alloc::{AllocError, Global};
use std::io::{Read, Write};
use std::marker::Model;

/// A port over a reader and a writer: the edge to the outside, of whose bytes no contract speaks.
///
/// `hear` reads nothing while a whole line is pending, so a line is heard as soon as it has come. `say` writes all the bytes
/// and flushes, so that the other side can wait for them before it writes its next line.
#[derive(Drop)]
pub struct StdPort<R: Read, W: Write> {
    lines: LineReader<R>,
    sink: StdSink<W>,
    /// For contracts: nothing is done by it.
    finish: Option<Finish>,
}

impl<R: Read, W: Write> Model for StdPort<R, W> {
    ghost use Rattle.line_port.specs.Edge.{Edge};

    ghost Value = { Edge R W };

    ghost view = { λ p. record {
      reader = p.lines.reader;
      pending = p.lines.pending;
      writer = p.sink.writer;
      faults = record { reads = p.lines.faults; writes = p.sink.faults };
      finish = p.finish;
    } };
}

impl<R: Read, W: Write> StdPort<R, W> {
    /// A port that has heard and said nothing.
    pub fn new(alloc: Global, reader: R, writer: W) -> Result<StdPort<R, W>, AllocError>
    where
        R: Drop,
        W: Drop,
        ensures { IfOk result (λ port.
            port ≡ record { reader = reader; pending = []; writer = writer; faults = no_faults; finish = None }) }
    {
        Ok(StdPort {
            lines: LineReader::new(alloc, reader)?,
            sink: StdSink::new(writer),
            finish: None,
        })
    }
}

impl<R: Read, W: Write> Port for StdPort<R, W> {
    ghost use Rattle.line_port.specs.Edge.{told_at};

    ghost told = { λ port. told_at R.remaining W.contents port };

    ghost finish = { λ port. port.finish };

    ghost faults = { λ port. port.faults };

    fn hear(&mut self, line: &mut Vec<u8>) -> Heard
        requires { self.old.finish ≡ None }
        ensures heard { HearsAs result line.new.items (told_at R.remaining W.contents self.old)
            (told_at R.remaining W.contents self.new) }
        ensures within { result ≡ Heard.Line → length line.new.items ≤ 8388736 }
        ensures finishes { self.new.finish ≡ finish_of_heard result }
        ensures faults { self.new.faults ≡ faults_behind (finish_of_heard result) self.old.faults }

        // What is gone from a reader that tells what it has left. Nothing is read while a whole line is pending, and nothing is
        // written.
        ensures takes { TakesLine result line.new.items (left_at R.remaining self.old) (left_at R.remaining self.new) }
        ensures prompt { ¬ Lacks 10 self.old.pending → self.new.reader ≡ self.old.reader }
        ensures writer { self.new.writer ≡ self.old.writer }
    {
        let heard = self.lines.next_line(line);
        self.finish = heard.finish();
        heard
    }

    fn say(&mut self, bytes: &[u8]) -> Said
        requires { self.old.finish ≡ None }
        ensures done { result ≡ Said.Done → Happens (Says bytes.now) (told_at R.remaining W.contents self.old)
            (told_at R.remaining W.contents self.new) }
        ensures failed { result ≡ Said.Failed → (n : ℕ) × Happens (Says (take n bytes.now))
            (told_at R.remaining W.contents self.old) (told_at R.remaining W.contents self.new) }
        ensures memory { result ≢ Said.Memory }
        ensures finishes { self.new.finish ≡ finish_of_said result }
        ensures faults { self.new.faults ≡ faults_behind (finish_of_said result) self.old.faults }

        // What has come to a writer that tells what it holds. Nothing is read.
        ensures writes { WritesOut result (W.contents self.old.writer) (W.contents self.new.writer) bytes.now }
        ensures reader { self.new.reader ≡ self.old.reader }
        ensures pending { self.new.pending ≡ self.old.pending }
    {
        let said = match self.sink.put(bytes) {
            Put::Done => Said::Done,
            Put::Failed | Put::Memory => Said::Failed,
        };
        self.finish = said.finish();
        said
    }
}
