//! Reading the text of a trace with signals.

ghost use Rattle.std.specs.Prelude.{◌≡◌, ℕ, ◌<◌, ◌^◌, ◌+◌, ◌⊎◌, [], List, length, not, true, Ok, Err, IfOk, IfErr};
ghost use Rattle.notify_text.specs.Grammar.{IsFaultOf, IsFirstFault, Spells, piece_fault};
ghost use Rattle.notify_text.specs.Rules.{after_line, has_no_signal, line_rules, no_lines, notify_trace_in};
ghost use Rattle.notify_text.specs.Sound.{IsSoundTold};
ghost use Rattle.notify_text.specs.Statement.{HasBootOfSignals, scene_of, with_statement};
ghost use Rattle.notify_text.specs.declared.notify_trace.NotifyTrace.{NotifyTrace};
ghost use Rattle.trace_text.specs.Grammar.{IsPlacedIn};
ghost use Rattle.trace_text.specs.Judging.{IsEnded, IsPut, IsTaken};
ghost use Rattle.trace_text.specs.Statement.{HasFewCpus, IsInPlace};
ghost use Rattle.trace_text.specs.declared.fault.BadKind.{BadKind};

use crate::judging::judge_line;
use crate::notify_trace::{NotifyTrace, Signal};
use base::Sequence;
use std::alloc::Global;
use std::marker::Model;
use text_lines::split_line;
use trace_text::{BadKind, Builder, LineFault, Statement, TraceFault};
use uuid::Uuid;

/// The trace and the signals that the lines so far give.
#[derive(Drop)]
struct Reader {
    builder: Builder,
    signals: Vec<Signal>,
}

impl Model for Reader {
    ghost use Rattle.notify_text.specs.Rules.{NotifyFront};

    ghost Value = { NotifyFront };

    ghost view = { λ r. record { trace = r.builder; signals = r.signals.items } };
}

impl Reader {
    /// Before the first line.
    fn new(alloc: Global) -> Reader
        ensures { result ≡ no_lines }
    {
        Reader {
            builder: Builder::new(alloc),
            signals: Vec::new(alloc),
        }
    }

    /// Whether a signal closes what a boot is given.
    fn is_closed(&self) -> bool
        ensures { result ≡ not (has_no_signal self.now.signals) }
    {
        !self.signals.is_empty()
    }

    /// Adds what a line says that keeps its rules.
    fn push(&mut self, said: Statement) -> Result<(), LineFault>
        requires place { IsInPlace (scene_of self.old) said }
        requires few { HasFewCpus said }
        ensures { IsPut result (with_statement self.old said) self.new }
    {
        if let Statement::Signal(value) = said {
            let at = self.builder.item_count();
            self.signals.push(Signal { at, value })?;
            return Ok(());
        }
        self.builder.push(said)
    }

    /// Takes a line, which is given without its line feed.
    fn take(&mut self, alloc: Global, natives: &[Uuid], line: &[u8]) -> Result<(), LineFault>
        requires { HasBootOfSignals self.old }
        ensures { IsTaken result (line_rules natives.now self.old true line.now) (after_line self.old line.now) self.new }
    {
        let is_closed = self.is_closed();
        let said = judge_line(alloc, natives, self.builder.scene(), is_closed, line)?;
        self.push(said)
    }

    /// The trace with its signals, where the text ends with these bytes behind its last line feed.
    fn finish(self, rest: &[u8]) -> Result<NotifyTrace, BadKind>
        ensures { (natives : List (List ℕ)) → IsEnded result (piece_fault natives self rest.now []) (notify_trace_in self) }
    {
        let Reader { builder, signals } = self;
        match builder.finish_text(rest) {
            Ok(trace) => Ok(NotifyTrace {
                trace,
                signals: Sequence::of(signals),
            }),
            Err(kind) => Err(kind),
        }
    }
}

/// Reads the text of a trace with signals, whose format `docs/formats.md` states. `natives` are the UUIDs of the
/// applications that are built in, which no `ta` line may repeat.
///
/// The first line with a fault decides, and in it the first kind in the order of [`BadKind`]. `Bad` has its place, its
/// line counted from 1; [`BadKind::Unended`] has the place behind the last line.
pub fn read_notify_trace(
    alloc: Global,
    text: &[u8],
    natives: &[Uuid],
) -> Result<NotifyTrace, TraceFault>
    requires { length text.now + 1 < 2 ^ 32 }
    // What is read is spelled so.
    ensures found { IfOk result (λ told. Spells natives.now text.now told) }
    // What is spelled so is read, unless memory runs out.
    ensures only { (told : NotifyTrace) → Spells natives.now text.now told
        → (result ≡ Ok told) ⊎ (result ≡ Err TraceFault.Memory) }
    // A fault is the first one.
    ensures bad { IfErr result (IsFaultOf natives.now text.now) }
    // A text with a fault is refused by its first one, unless memory runs out.
    ensures refused { (place : ℕ) (kind : BadKind) → IsFirstFault natives.now text.now place kind
        → (result ≡ Err (TraceFault.Bad place kind)) ⊎ (result ≡ Err TraceFault.Memory) }
    // It stands in a line, or behind the last one.
    ensures placed { IfErr result (IsPlacedIn text.now) }
    // What is read is within the limits of a trace with signals.
    ensures sound { IfOk result (IsSoundTold natives.now) }
{
    let mut reader = Reader::new(alloc);
    let mut place = 1u32;
    let mut rest = text;
    while let Some((line, after)) = split_line(rest) {
        if let Err(fault) = reader.take(alloc, natives, line) {
            return Err(fault.at(place));
        }
        place += 1;
        rest = after;
    }
    match reader.finish(rest) {
        Ok(told) => Ok(told),
        Err(kind) => Err(TraceFault::Bad { place, kind }),
    }
}
