//! What the ports of standard input and output, and of a conversation, do over readers and writers that are short, interrupted or fail.

ghost use Rattle.std.specs.Prelude.{◌≡◌, ◌≤◌, None, IfOk};

use crate::number;
use anyhow::{Context, Error, Result};
use line_port::{Heard, Port, StdPort};
use ports::{Put, Sink, Source, StdSink, StdSource, Taken};
use std::alloc::Global;
use std::io::{ErrorKind, Read, Write};
use std::{fmt, io};

fn take_from<S: Source>(source: &mut S, buf: &mut [u8]) -> Taken {
    source.take(buf)
}

fn put_to<K: Sink>(sink: &mut K, bytes: &[u8]) -> Put {
    sink.put(bytes)
}

/// What a fake reader or writer does at a call.
#[derive(Clone, Copy)]
enum Step {
    /// It moves at most so many bytes.
    Moves(usize),
    Interrupted,
    Broken,
}

impl Step {
    /// How many of so many bytes are moved.
    fn count(self, most: usize) -> io::Result<usize>
        ensures { IfOk result (λ n. n ≤ most) }
    {
        match self {
            Step::Moves(count) => Ok(count.min(most)),
            Step::Interrupted => Err(io::Error::from(ErrorKind::Interrupted)),
            Step::Broken => Err(io::Error::from(ErrorKind::BrokenPipe)),
        }
    }
}

/// The steps in turn, and then the last one for ever.
#[derive(Drop)]
struct Steps<'a> {
    steps: &'a [Step],
    last: Step,
}

impl<'a> Steps<'a> {
    /// None where there is no step.
    fn of(steps: &'a [Step]) -> Option<Steps<'a>> {
        let last = *steps.last()?;
        Some(Steps { steps, last })
    }

    fn next_step(&mut self) -> Step {
        match self.steps.split_first() {
            Some((step, rest)) => {
                self.steps = rest;
                *step
            }
            None => self.last,
        }
    }
}

/// The step of a word: how many bytes it moves, `i` for interrupted, `b` for broken.
fn step_of(word: &str) -> Result<Step> {
    match word {
        "i" => Ok(Step::Interrupted),
        "b" => Ok(Step::Broken),
        _ => Ok(Step::Moves(number(word)? as usize)),
    }
}

/// The steps of these words.
fn steps_of(alloc: Global, words: &[&str]) -> Result<Vec<Step>> {
    let mut steps = Vec::new(alloc);
    for word in words {
        steps.push(step_of(word)?)?;
    }
    Ok(steps)
}

#[derive(Drop)]
struct FakeReader<'a> {
    steps: Steps<'a>,
    text: &'a [u8],
}

impl Read for FakeReader<'_> {
    fn read(&mut self, buf: &mut [u8]) -> io::Result<usize> {
        let count = self
            .steps
            .next_step()
            .count(self.text.len().min(buf.len()))?;
        let (front, rest) = self.text.split_at(count);
        buf[..count].copy_from_slice(front);
        self.text = rest;
        Ok(count)
    }
}

#[derive(Drop)]
struct FakeWriter<'a> {
    steps: Steps<'a>,
    held: Vec<u8>,
    flushed: usize,
}

impl Write for FakeWriter<'_> {
    fn write(&mut self, buf: &[u8]) -> io::Result<usize> {
        let count = self.steps.next_step().count(buf.len())?;
        self.held.extend_from_slice(&buf[..count])?;
        Ok(count)
    }

    fn flush(&mut self) -> io::Result<()> {
        self.steps.next_step().count(0)?;
        self.flushed = self.held.len();
        Ok(())
    }
}

/// A source over a reader that takes these steps and has this text.
fn source_over<'a>(steps: &'a [Step], text: &'a [u8]) -> Result<StdSource<FakeReader<'a>>> {
    let steps = Steps::of(steps).context("reading a step")?;
    Ok(StdSource::new(FakeReader { steps, text }))
}

/// Takes with so much room, and tells the answer and what stands in the buffer then.
fn tell_take<S: Source>(
    alloc: Global,
    told: &mut String,
    source: &mut S,
    room: &str,
) -> Result<()> {
    let mut buf = vec![in alloc; 0; number(room)? as usize]?;
    let taken = take_from(source, buf.as_mut_slice());
    let held = String::from_utf8_lossy(alloc, buf.as_slice())?;
    write!(told, "{taken:?} {:?}", held.as_str()).context("telling a take")
}

/// What a source over a fake reader answers at each call, what its buffer has then, and the faults by then, as `source ROOMS TEXT STEP ..` has it; a room and the next have a
/// comma between them.
pub(crate) fn source_told(alloc: Global, row: &str) -> Result<String> {
    let words: Vec<&str> = row.split(' ').collect(alloc)?;
    let [rooms, text, steps @ ..] = words.as_slice() else {
        return Err(Error::msg("a source has two words and its steps"));
    };
    let steps = steps_of(alloc, steps)?;
    let mut source = source_over(steps.as_slice(), text.as_bytes())?;
    let mut told = String::new(alloc);
    for room in rooms.split(',') {
        tell_take(alloc, &mut told, &mut source, room)?;
        write!(told, " {}, ", source.faults())?;
    }
    Ok(told)
}

/// What a put of this text comes to, and what the writer has then and at its last flush.
fn put_told(alloc: Global, text: &str, writer: &mut FakeWriter<'_>) -> Result<String> {
    let mut sink = StdSink::new(&mut *writer);
    let put = put_to(&mut sink, text.as_bytes());
    let held = String::from_utf8_lossy(alloc, writer.held.as_slice())?;
    format!(in alloc; "{put:?} {held} {}", writer.flushed).context("telling a put")
}

/// What a sink over a fake writer answers, as `sink TEXT STEP ..` has it.
pub(crate) fn sink_told(alloc: Global, row: &str) -> Result<String> {
    let words: Vec<&str> = row.split(' ').collect(alloc)?;
    let [text, steps @ ..] = words.as_slice() else {
        return Err(Error::msg("a sink has a word and its steps"));
    };
    let steps = steps_of(alloc, steps)?;
    let mut writer = FakeWriter {
        steps: Steps::of(steps.as_slice()).context("reading a step")?,
        held: Vec::new(alloc),
        flushed: 0,
    };
    put_told(alloc, text, &mut writer)
}

/// A port of a conversation over a reader that takes these steps and has this text.
fn port_over<'a>(
    alloc: Global,
    steps: &'a [Step],
    text: &'a [u8],
) -> Result<StdPort<FakeReader<'a>, FakeWriter<'a>>>
    ensures { IfOk result (λ port. port.finish ≡ None) }
{
    let reader = FakeReader {
        steps: Steps::of(steps).context("reading a step")?,
        text,
    };
    let writer = FakeWriter {
        steps: Steps::of(steps).context("reading a step")?,
        held: Vec::new(alloc),
        flushed: 0,
    };
    Ok(StdPort::new(alloc, reader, writer)?)
}

/// Tells what was heard, with the line where it is one.
fn tell_heard(alloc: Global, told: &mut String, heard: Heard, line: &[u8]) -> Result<()> {
    if heard != Heard::Line {
        return write!(told, "{heard:?}, ").context("telling what was heard");
    }
    let line = String::from_utf8_lossy(alloc, line)?;
    write!(told, "{heard:?} {:?}, ", line.as_str()).context("telling a line")
}

/// What a port over a fake reader hears first, and next, unless it has ended by then, as `hears TEXT STEP ..` has it; a stroke in the
/// text stands for a line feed.
pub(crate) fn heard_told(alloc: Global, row: &str) -> Result<String> {
    let words: Vec<&str> = row.split(' ').collect(alloc)?;
    let [text, steps @ ..] = words.as_slice() else {
        return Err(Error::msg("hearing has a word and its steps"));
    };
    let steps = steps_of(alloc, steps)?;
    let text: Vec<u8> = text
        .bytes()
        .map(|byte| if byte == b'/' { b'\n' } else { byte })
        .collect(alloc)?;
    let mut port = port_over(alloc, steps.as_slice(), text.as_slice())?;
    let mut line = Vec::new(alloc);
    let mut told = String::new(alloc);
    let first = port.hear(&mut line);
    tell_heard(alloc, &mut told, first, line.as_slice())?;
    if first.finish().is_some() {
        return Ok(told);
    }
    let next = port.hear(&mut line);
    tell_heard(alloc, &mut told, next, line.as_slice())?;
    Ok(told)
}
