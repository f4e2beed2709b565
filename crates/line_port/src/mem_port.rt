ghost use Rattle.std.specs.Prelude.{◌≡◌, ◌≢◌, ◌<◌, ◌≤◌, ◌⊎◌, [], ◌∷◌, ◌++◌, Some, None, IfOk, OnOk, OnErr, length};
ghost use Rattle.line_port.specs.Faults.{faults_behind, no_faults};
ghost use Rattle.line_port.specs.Finish.{finish_of_said};
ghost use Rattle.line_port.specs.History.{Says, heard_events};
ghost use Rattle.line_port.specs.Kept.{events_of};

use crate::faults::Faults;
use crate::finish::Finish;
use crate::gathering::LONGEST_LINE;
use crate::port::{Heard, Port, Said};
use std::alloc::{AllocError, Global};

/// What the other side of a port in memory does next.
#[derive(Clone, Copy, Debug, PartialEq, Eq)]
pub enum Next {
    /// It says a line.
    Line,
    /// It ends within this line. With no bytes it has no more to say.
    Cut,
    /// It has no more to say.
    Over,
}

/// The other side of a conversation in memory.
pub trait OtherSide {
    /// What it does next, by what was said last, and before anything was said by no bytes. A line is appended to `line`,
    /// which is empty, without a line feed.
    fn next(&mut self, said: &[u8], line: &mut Vec<u8>) -> Result<Next, AllocError>;
}

/// An other side that says the lines of a list, whatever is said to it.
#[derive(Drop)]
pub struct Listed {
    lines: Vec<Vec<u8>>,
    next: usize,
}

impl Listed {
    /// Takes no memory.
    pub fn new(lines: Vec<Vec<u8>>) -> Listed {
        Listed { lines, next: 0 }
    }
}

impl OtherSide for Listed {
    fn next(&mut self, _said: &[u8], line: &mut Vec<u8>) -> Result<Next, AllocError> {
        let Some(next) = self.lines.get(self.next) else {
            return Ok(Next::Over);
        };
        line.extend_from_slice(next.as_slice())?;
        self.next += 1;
        Ok(Next::Line)
    }
}

/// What a port in memory keeps of what was heard and said.
#[derive(Drop)]
pub enum Entry {
    /// This line was heard.
    Line(Vec<u8>),
    /// A line that is too long was heard.
    Long,
    /// The input ended within a line.
    Cut,
    /// These bytes were said.
    Said(Vec<u8>),
}

/// A port in memory, which tells what was heard and said. Its calls fail as they were told to.
#[derive(Drop)]
pub struct MemPort<B> {
    alloc: Global,
    other: B,
    log: Vec<Entry>,
    finish: Option<Finish>,
    faults: Faults,
    /// The numbers of the calls that fail, counted from 0.
    fails: Vec<u64>,
    /// The number of the next call. One that has come to 2^64 - 1 stays there.
    calls: u64,
}

/// What was said last, where nothing was heard since.
fn last_said(log: &[Entry]) -> &[u8] {
    match log.last() {
        Some(Entry::Said(bytes)) => bytes.as_slice(),
        _ => &[],
    }
}

/// Adds a line that was heard.
fn keep_line(alloc: Global, log: &mut Vec<Entry>, line: &[u8]) -> Result<(), AllocError>
    ensures kept { OnOk result (events_of log.new.items ≡ events_of log.old.items ++ heard_events Heard.Line line.now) }
    ensures stays { OnErr result (log.new.items ≡ log.old.items) }
{
    log.push(Entry::Line(line.to_vec(alloc)?))?;
    Ok(())
}

/// Adds what was heard.
fn keep_heard(
    alloc: Global,
    log: &mut Vec<Entry>,
    heard: Heard,
    line: &[u8],
) -> Result<(), AllocError>
    ensures kept { OnOk result (events_of log.new.items ≡ events_of log.old.items ++ heard_events heard line.now) }
    ensures stays { OnErr result (log.new.items ≡ log.old.items) }
{
    match heard {
        Heard::Line => keep_line(alloc, log, line),
        Heard::Long => log.push(Entry::Long).map_err(|_| AllocError),
        Heard::Cut => log.push(Entry::Cut).map_err(|_| AllocError),
        Heard::End | Heard::Failed | Heard::Memory => Ok(()),
    }
}

/// Adds bytes that were said.
fn keep_said(alloc: Global, log: &mut Vec<Entry>, bytes: &[u8]) -> Result<(), AllocError>
    ensures kept { OnOk result (events_of log.new.items ≡ events_of log.old.items ++ Says bytes.now ∷ []) }
    ensures stays { OnErr result (log.new.items ≡ log.old.items) }
{
    log.push(Entry::Said(bytes.to_vec(alloc)?))?;
    Ok(())
}

/// What a line of so many bytes comes to.
fn heard_as(next: Next, count: usize) -> Heard
    ensures within { result ≡ Heard.Line → count ≤ 8388736 }
    ensures cut { result ≡ Heard.Cut → 0 < count }
    ensures fault { result ≢ Heard.Failed }
{
    match next {
        Next::Line | Next::Cut if count > LONGEST_LINE => Heard::Long,
        Next::Line => Heard::Line,
        Next::Cut if count > 0 => Heard::Cut,
        Next::Cut | Next::Over => Heard::End,
    }
}

impl<B: OtherSide> MemPort<B> {
    /// Nothing was heard or said. The calls whose numbers stand in `fails`, counted from 0, fail, and no others. Takes no
    /// memory.
    pub fn new(alloc: Global, other: B, fails: Vec<u64>) -> MemPort<B>
        ensures events { events_of result.log.items ≡ [] }
        ensures finish { result.finish ≡ None }
        ensures faults { result.faults ≡ no_faults }
    {
        MemPort {
            alloc,
            other,
            log: Vec::new(alloc),
            finish: None,
            faults: Faults {
                reads: 0,
                writes: 0,
            },
            fails,
            calls: 0,
        }
    }

    /// What was heard and said, in its order.
    pub fn log(&self) -> &[Entry]
        ensures { result.now ≡ self.now.log.items }
    {
        self.log.as_slice()
    }

    /// How it has come to its end, where it has.
    pub fn finish(&self) -> Option<Finish>
        ensures { result ≡ self.now.finish }
    {
        self.finish
    }

    /// Counts a call. Says whether it fails.
    fn begin_call(&mut self) -> bool
        ensures { self.new ≡ record self.old { calls = self.new.calls } }
    {
        let call = self.calls;
        self.calls = call.saturating_add(1);
        self.fails.iter().any(|number| *number == call)
    }

    /// Fails as it hears something.
    fn fail_hearing(&mut self) -> Heard
        ensures answer { result ≡ Heard.Failed }
        ensures counted { self.new ≡ record self.old { faults = faults_behind (Some Finish.ReadFault) self.old.faults } }
    {
        self.faults.reads = self.faults.reads.saturating_add(1);
        Heard::Failed
    }

    /// Fails as it says something, none of which is said.
    fn fail_saying(&mut self) -> Said
        ensures answer { (result ≡ Said.Failed) ⊎ (result ≡ Said.Memory) }
        ensures failed { result ≡ Said.Failed →
            events_of self.new.log.items ≡ events_of self.old.log.items ++ Says [] ∷ [] }
        ensures memory { result ≡ Said.Memory → self.new.log.items ≡ self.old.log.items }
        ensures counted { self.new.faults ≡ faults_behind (finish_of_said result) self.old.faults }
    {
        match keep_said(self.alloc, &mut self.log, &[]) {
            Ok(()) => {
                self.faults.writes = self.faults.writes.saturating_add(1);
                Said::Failed
            }
            Err(_) => Said::Memory,
        }
    }

    /// Says the bytes, which are kept as said.
    fn say_all(&mut self, bytes: &[u8]) -> Said
        ensures answer { (result ≡ Said.Done) ⊎ (result ≡ Said.Memory) }
        ensures done { result ≡ Said.Done →
            events_of self.new.log.items ≡ events_of self.old.log.items ++ Says bytes.now ∷ [] }
        ensures memory { result ≡ Said.Memory → self.new.log.items ≡ self.old.log.items }
        ensures faults { self.new.faults ≡ self.old.faults }
    {
        match keep_said(self.alloc, &mut self.log, bytes) {
            Ok(()) => Said::Done,
            Err(_) => Said::Memory,
        }
    }

    /// What the other side does next, kept as heard.
    fn next(&mut self, line: &mut Vec<u8>) -> Result<Heard, AllocError>
        ensures within { IfOk result (λ heard. heard ≡ Heard.Line → length line.new.items ≤ 8388736) }
        ensures heard { IfOk result (λ heard.
            events_of self.new.log.items ≡ events_of self.old.log.items ++ heard_events heard line.new.items) }
        ensures stays { OnErr result (self.new.log.items ≡ self.old.log.items) }
        ensures fault { IfOk result (λ heard. heard ≢ Heard.Failed) }
        ensures faults { self.new.faults ≡ self.old.faults }
    {
        line.clear();
        let next = self.other.next(last_said(self.log.as_slice()), line)?;
        let heard = heard_as(next, line.len());
        keep_heard(self.alloc, &mut self.log, heard, line.as_slice())?;
        Ok(heard)
    }

    /// What is heard next, where the call doesn't fail.
    fn hear_next(&mut self, line: &mut Vec<u8>) -> Heard
        ensures within { result ≡ Heard.Line → length line.new.items ≤ 8388736 }
        ensures heard { events_of self.new.log.items ≡ events_of self.old.log.items ++ heard_events result line.new.items }
        ensures fault { result ≢ Heard.Failed }
        ensures faults { self.new.faults ≡ self.old.faults }
    {
        match self.next(line) {
            Ok(heard) => heard,
            Err(_) => Heard::Memory,
        }
    }
}

impl<B: OtherSide> Port for MemPort<B> {
    ghost use Rattle.line_port.specs.Kept.{events_of, told_of};

    ghost told = { λ port. told_of (events_of port.log.items) };

    ghost finish = { λ port. port.finish };

    ghost faults = { λ port. port.faults };

    fn hear(&mut self, line: &mut Vec<u8>) -> Heard {
        let heard = if self.begin_call() {
            self.fail_hearing()
        } else {
            self.hear_next(line)
        };
        self.finish = heard.finish();
        heard
    }

    fn say(&mut self, bytes: &[u8]) -> Said {
        let said = if self.begin_call() {
            self.fail_saying()
        } else {
            self.say_all(bytes)
        };
        self.finish = said.finish();
        said
    }
}
