//! The top call over bytes in memory.
ghost use Rattle.std.specs.Prelude.{◌≡◌, [], map, string_bytes};
ghost use Rattle.native_tas.specs.Table.{drivers, entries};
ghost use Rattle.native_tas.specs.Program.{program_drivers, program_entries};
ghost use Rattle.core_c.specs.Running.{IsRun};
ghost use Rattle.core_c.specs.Words.{texts_in};

use crate::growing_sink::GrowingSink;
use crate::slice_source::SliceSource;
use crate::words::words_in;
use alone_runner::{AtEnd, Status, run_alone};
use native_tas::{Natives, program_natives};
use std::alloc::Global;

/// How a call ended, and what it has put.
#[derive(Drop)]
pub struct Outcome {
    pub status: Status,
    pub output: Vec<u8>,
}

/// The top call, beside these built-in applications. No thread is started, so the word that asks for some is answered as words
/// that ask for nothing. C's process goes on, so all that was played is freed.
fn run_beside(
    alloc: Global,
    words: &[String],
    input: &mut SliceSource<'_>,
    out: &mut GrowingSink,
    natives: &Natives,
) -> Status
    requires { out.old.held.items ≡ [] }
    ensures { IsRun (entries natives.now) (drivers natives.now) (map string_bytes words.now) input.old.left.now result out.new.held.items }
{
    run_alone(alloc, words, input, out, natives, AtEnd::Free)
}

/// The top call, beside the application and the driver that are built into the program.
#[tactic(auto, using(crate::proofs::Runs::unrun, crate::proofs::Runs::beside))]
fn run_words(
    alloc: Global,
    words: &[String],
    input: &mut SliceSource<'_>,
    out: &mut GrowingSink,
) -> Status
    requires { out.old.held.items ≡ [] }
    ensures { IsRun program_entries program_drivers (map string_bytes words.now) input.old.left.now result out.new.held.items }
{
    match program_natives!(alloc) {
        Ok(natives) => run_beside(alloc, words, input, out, &natives),
        Err(_) => Status::Memory,
    }
}

/// The top call with the words of a line.
#[tactic(auto, using(crate::proofs::Runs::unrun, crate::proofs::Runs::worded))]
fn run_line(
    alloc: Global,
    line: &[u8],
    input: &mut SliceSource<'_>,
    out: &mut GrowingSink,
) -> Status
    requires { out.old.held.items ≡ [] }
    ensures { IsRun program_entries program_drivers (texts_in line.now) input.old.left.now result out.new.held.items }
{
    match words_in(alloc, line) {
        Ok(words) => run_words(alloc, words.as_slice(), input, out),
        Err(_) => Status::Memory,
    }
}

/// The top call with the words of a line, over these bytes.
#[tactic(auto, using(crate::proofs::Runs::fed))]
pub fn outcome_of(alloc: Global, line: &[u8], input: &[u8]) -> Outcome
    ensures { IsRun program_entries program_drivers (texts_in line.now) input.now result.status result.output.items }
{
    let mut source = SliceSource::new(input);
    let mut sink = GrowingSink::new(alloc);
    let status = run_line(alloc, line, &mut source, &mut sink);
    Outcome {
        status,
        output: sink.held,
    }
}
