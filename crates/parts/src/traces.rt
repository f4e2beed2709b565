//! Traces: their texts, their bytes and made ones.

ghost use Rattle.std.specs.Prelude.{[]};
ghost use Rattle.trace_text.specs.Sound.{IsSound};

use anyhow::{Context, Error, Result, anyhow};
use native_tas::DIGEST_UUID;
use std::alloc::{AllocError, Global};
use std::fmt::Write;
use trace_bin::{read_binary, write_binary};
use trace_text::{Trace, TraceFault, read_trace};
use uuid::Uuid;

/// The bytes that a text may have here.
const MOST_BYTES: usize = 1 << 25;

/// The error of a text above the limit.
fn too_long() -> Error {
    Error::msg("the text is too long")
}

/// What a trace holds, in numbers.
fn summary(alloc: Global, trace: &Trace) -> Result<String, AllocError> {
    let fills = trace.fills.len();
    let items = trace.items.len();
    match &trace.boot {
        Some(boot) => {
            let apps = boot.apps.len();
            format!(in alloc; "{apps} applications, {fills} fills, {items} items")
        }
        None => String::from_str(alloc, "no boot"),
    }
}

/// The line that tells why no trace was read.
fn fault_line(alloc: Global, fault: TraceFault) -> Result<String> {
    match fault {
        TraceFault::Memory => Err(Error::from(fault)),
        TraceFault::Bad { .. } => format!(in alloc; "{fault}").context("telling a fault"),
    }
}

/// The line that tells in numbers what a text is.
pub(crate) fn summary_of(alloc: Global, text: &[u8]) -> Result<String> {
    if text.len() > MOST_BYTES {
        return Err(too_long());
    }
    match read_trace(alloc, text, &[]) {
        Ok(trace) => summary(alloc, &trace).context("telling a trace"),
        Err(fault) => fault_line(alloc, fault),
    }
}

/// A whole trace, as a line.
fn shown(alloc: Global, trace: &Trace) -> Result<String, AllocError> {
    format!(in alloc; "{trace:?}")
}

/// What reading gave, as a line.
fn read_told(alloc: Global, read: Result<Trace, TraceFault>) -> Result<String> {
    match read {
        Ok(trace) => shown(alloc, &trace).context("telling a trace"),
        Err(fault) => fault_line(alloc, fault),
    }
}

/// The line that tells what the text of a row is.
fn text_verdict(alloc: Global, natives: &[Uuid], text: &[u8]) -> Result<String> {
    if text.len() > MOST_BYTES {
        return Err(too_long());
    }
    read_told(alloc, read_trace(alloc, text, natives))
}

/// The line that tells what the bytes of a row are.
fn bytes_verdict(alloc: Global, natives: &[Uuid], bytes: &[u8]) -> Result<String> {
    if bytes.len() > MOST_BYTES {
        return Err(Error::msg("the bytes are too many"));
    }
    read_told(alloc, read_binary(alloc, bytes, natives))
}

/// The line that tells what the bytes are that digits write, with blanks anywhere.
fn digits_verdict(alloc: Global, natives: &[Uuid], text: &str) -> Result<String> {
    let digits = text.replace(alloc, " ", "")?;
    let bytes = hex::decode(alloc, digits.as_bytes())?;
    bytes_verdict(alloc, natives, bytes.as_slice())
}

/// The bytes that are written of a trace.
fn bytes_of(alloc: Global, trace: &Trace) -> Result<Vec<u8>>
    requires { IsSound [] trace.now }
{
    if trace.boot.is_none() {
        return Err(Error::msg("a trace without a boot"));
    }
    write_binary(alloc, trace).context("writing a trace")
}

/// The bytes that are written of the trace of a text.
fn written(alloc: Global, text: &str) -> Result<Vec<u8>> {
    if text.len() > MOST_BYTES {
        return Err(too_long());
    }
    let trace = read_trace(alloc, text.as_bytes(), &[])?;
    bytes_of(alloc, &trace)
}

/// Fails where bytes are not read as the trace of a text.
fn compare(alloc: Global, natives: &[Uuid], bytes: &[u8], text: &str) -> Result<()> {
    let read = bytes_verdict(alloc, natives, bytes)?;
    let given = text_verdict(alloc, natives, text.as_bytes())?;
    if given.as_str() != read.as_str() {
        return Err(anyhow!("another trace: {read}"));
    }
    Ok(())
}

/// The bytes of the trace of a text, in digits, where they are read again.
fn binary_verdict(alloc: Global, natives: &[Uuid], text: &str) -> Result<String> {
    let bytes = written(alloc, text)?;
    compare(alloc, natives, bytes.as_slice(), text)?;
    hex::encode(alloc, bytes.as_slice()).context("telling bytes")
}

/// What came in a row, and how often the last of it.
#[derive(Drop)]
struct Counts {
    line: String,
    last: String,
    count: u64,
}

impl Counts {
    fn new(alloc: Global) -> Counts {
        Counts {
            line: String::new(alloc),
            last: String::new(alloc),
            count: 0,
        }
    }

    /// Tells how often the last came, if it did.
    fn tell_last(&mut self) -> Result<(), AllocError> {
        if self.count == 0 {
            return Ok(());
        }
        let comma = if self.line.as_str().is_empty() {
            ""
        } else {
            ", "
        };
        write!(self.line, "{comma}{} {}", self.count, self.last)
    }

    /// Counts what comes next.
    fn add(&mut self, next: String) -> Result<(), AllocError> {
        if next.as_str() != self.last.as_str() {
            self.tell_last()?;
            self.last = next;
            self.count = 0;
        }
        self.count = self.count.saturating_add(1);
        Ok(())
    }
}

/// What a front of the bytes of a text is.
fn front_verdict(alloc: Global, natives: &[Uuid], front: &[u8]) -> Result<String> {
    let verdict = bytes_verdict(alloc, natives, front)?;
    if verdict.as_str().starts_with("Trace") {
        return String::from_str(alloc, "a trace").context("telling a front");
    }
    Ok(verdict)
}

/// Counts what each shorter front of bytes is.
fn count_fronts(alloc: Global, natives: &[Uuid], bytes: &[u8], counts: &mut Counts) -> Result<()> {
    for end in 0..bytes.len() {
        counts.add(front_verdict(alloc, natives, &bytes[..end])?)?;
    }
    Ok(())
}

/// What each shorter front of the bytes of a text is.
fn fronts_verdict(alloc: Global, natives: &[Uuid], text: &str) -> Result<String> {
    let bytes = written(alloc, text)?;
    let mut counts = Counts::new(alloc);
    count_fronts(alloc, natives, bytes.as_slice(), &mut counts)?;
    counts.tell_last()?;
    Ok(counts.line)
}

/// The made trace of a seed and a number of calls.
fn made_verdict(alloc: Global, words: &str) -> Result<String> {
    let (seed, count) = words.split_once(' ').unwrap_or((words, "0"));
    let (seed, count) = (seed.parse::<u64>()?, count.parse::<u32>()?);
    if count > workload::MOST_CALLS {
        return Err(Error::msg("too many calls"));
    }
    let trace = workload::make_work(alloc, seed, count)?;
    shown(alloc, &trace).context("telling a trace")
}

/// What a row of this kind tells.
pub(crate) fn told(alloc: Global, kind: &str, row: &str) -> Result<String> {
    let natives = [Uuid::from_bytes(DIGEST_UUID)];
    match kind {
        "hex" => digits_verdict(alloc, &natives, row),
        "binary" => binary_verdict(alloc, &natives, row),
        "fronts" => fronts_verdict(alloc, &natives, row),
        "work" => made_verdict(alloc, row),
        _ => text_verdict(alloc, &natives, row.as_bytes()),
    }
}
