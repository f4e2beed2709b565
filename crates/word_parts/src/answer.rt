//! What is written at the end of a word, and the status that it ends with.

ghost use Rattle.std.specs.Prelude.{◌≡◌, ◌≢◌, ◌⊎◌, ◌≤◌};
ghost use Rattle.ports.specs.Port.{Rose};
ghost use Rattle.word_parts.specs.Answer.{AnswersFault, Writes, status_after, status_of};
ghost use Rattle.word_parts.specs.Faults.{TellsFaults};
ghost use Rattle.word_parts.specs.Line.{bad_trace_line};

use crate::line::bad_trace_line;
use crate::output::put_text;
use crate::status::Status;
use crate::stop::Stop;
use ports::{Put, Sink};
use std::alloc::Global;
use trace_text::{BadKind, TraceFault};

/// The status after a text was put: the named one where it was put whole.
pub fn status_after(named: Status, put: Put) -> Status
    ensures { result ≡ status_after named put }
{
    match put {
        Put::Done => named,
        Put::Failed => Status::WriteFault,
        Put::Memory => Status::Memory,
    }
}

/// Writes a line, and answers the status that it stands for.
pub fn answer_line<K: Sink>(out: &mut K, named: Status, line: &[u8]) -> Status
    ensures line { Writes named line.now result (K.held out.old) (K.held out.new) }
    ensures write_fault { result ≡ Status.WriteFault →
        (named ≡ Status.WriteFault) ⊎ Rose (K.faults out.old) (K.faults out.new) }
    ensures memory { result ≡ Status.Memory → (named ≡ Status.Memory) ⊎ (K.held out.new ≡ K.held out.old) }
    ensures count { K.faults out.old ≤ K.faults out.new }
    ensures stays { result ≢ Status.WriteFault → K.faults out.new ≡ K.faults out.old }
    ensures faults { named ≢ Status.Usage → named ≢ Status.WriteFault → TellsFaults result (K.faults out.old) (K.faults out.new) }
{
    status_after(named, put_text(out, line))
}

/// The status that a play stands for.
pub fn status_of(played: Result<(), Stop>) -> Status
    ensures { result ≡ status_of played }
{
    match played {
        Ok(()) => Status::Ok,
        Err(Stop::Full) => Status::TooLong,
        Err(Stop::Failed) => Status::WriteFault,
        Err(Stop::Memory) => Status::Memory,
    }
}

/// Writes the line of an input that leaves its grammar.
pub fn refuse<K: Sink>(alloc: Global, place: u32, kind: BadKind, out: &mut K) -> Status
    ensures line { Writes Status.BadTrace (bad_trace_line place kind) result (K.held out.old) (K.held out.new) }
    ensures memory { result ≡ Status.Memory → K.held out.new ≡ K.held out.old }
    ensures faults { TellsFaults result (K.faults out.old) (K.faults out.new) }
{
    match bad_trace_line(alloc, place, kind) {
        Ok(line) => answer_line(out, Status::BadTrace, line.as_slice()),
        Err(_) => Status::Memory,
    }
}

/// Answers an input that leaves its grammar by its line; or memory ran out where it was read.
pub fn answer_fault<K: Sink>(alloc: Global, fault: TraceFault, out: &mut K) -> Status
    ensures answered { AnswersFault fault result (K.held out.old) (K.held out.new) }
    ensures memory { result ≡ Status.Memory → K.held out.new ≡ K.held out.old }
    ensures faults { TellsFaults result (K.faults out.old) (K.faults out.new) }
{
    match fault {
        TraceFault::Bad { place, kind } => refuse(alloc, place, kind, out),
        TraceFault::Memory => Status::Memory,
    }
}
