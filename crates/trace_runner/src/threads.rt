//! The word `threads`: each processor of a trace plays its items in a thread of its own.

ghost use Rattle.std.specs.Prelude.{◌≡◌, ◌≢◌, ◌≤◌, ◌+◌, ◌^◌, IfOk, IfSome, []};
ghost use Rattle.native_tas.specs.Table.{entries};
ghost use Rattle.ports.specs.Port.{Appends, Rose};
ghost use Rattle.trace_text.specs.Sound.{IsSound};
ghost use Rattle.trace_player.specs.Starting.{trace_of, uuids_of};
ghost use Rattle.word_parts.specs.Faults.{TellsFaults};
ghost use Rattle.word_parts.specs.Input.{TakesAtMost};
ghost use Rattle.trace_runner.specs.Threads.{IsPlayedInOrder, IsServedByThreads, RanOnThreads, status_where};

use alone_runner::{AtEnd, Content, Grammar, Serve};
use base::NoMemory;
use core_at_work::core_of;
use core_machine::first_lanes;
use native_tas::Natives;
use ports::{Pace, Sink, Source};
use std::alloc::Global;
use std::sync::Wait;
use std::thread::Threads;
use ta_isa::Boot;
use threads_play::{play_on_threads, sound_traces_are_in_turn};
use trace_text::{Fill, Item, Trace};
use word_parts::{Status, answer_line, has_too_many, read_input};

/// What the processors of a trace have printed together.
#[derive(Drop)]
struct Blocks {
    text: Vec<u8>,
    /// Whether an entry was refused.
    refused: bool,
}

/// Plays the trace of this boot, with these fills and items, on a core that its processors share.
fn blocks_of<R: Threads + Wait + Sync, G: Pace + Sync>(
    rt: &R,
    alloc: Global,
    natives: &Natives,
    boot: Boot,
    fills: &[Fill],
    items: &[Item],
    pace: &G,
) -> Result<Blocks, NoMemory>
    requires { IsSound (uuids_of (entries natives.now)) (trace_of boot fills.now items.now) }
    ensures { IfOk result (λ blocks. IsPlayedInOrder (entries natives.now) boot (trace_of boot fills.now items.now)
        blocks.text.items blocks.refused) }
{
    sound_traces_are_in_turn();
    let lanes = first_lanes(alloc, boot.cpus, fills)?;
    let core = core_of(alloc, boot, natives)?;
    let play = play_on_threads(rt, alloc, core, lanes, items, pace)?;
    Ok(Blocks {
        text: play.text,
        refused: play.refused,
    })
}

/// The status of a play, by whether it refuses an entry.
fn status_where(refused: bool) -> Status
    ensures named { result ≡ status_where refused }
    ensures played { result ≡ Status.Memory → ⊥ }
{
    if refused { Status::TooLong } else { Status::Ok }
}

/// Plays a trace, where it doesn't have too many SMC items, and writes its blocks once all threads have ended.
fn answer_trace<R: Threads + Wait + Sync, K: Sink, G: Pace + Sync>(
    rt: &R,
    alloc: Global,
    natives: &Natives,
    trace: Trace,
    out: &mut K,
    pace: &G,
) -> Status
    requires { IsSound (uuids_of (entries natives.now)) trace }
    ensures served { IsServedByThreads (entries natives.now) trace result (K.held out.old) (K.held out.new) }
    ensures memory { result ≡ Status.Memory → K.held out.new ≡ K.held out.old }
    ensures faults { TellsFaults result (K.faults out.old) (K.faults out.new) }
{
    if has_too_many(trace.items.as_slice()) {
        return Status::TooLong;
    }
    let Trace { boot, fills, items } = trace;
    let Some(boot) = boot else {
        return Status::Ok;
    };
    match blocks_of(
        rt,
        alloc,
        natives,
        boot,
        fills.as_slice(),
        items.as_slice(),
        pace,
    ) {
        Ok(blocks) => answer_line(out, status_where(blocks.refused), blocks.text.as_slice()),
        Err(NoMemory) => Status::Memory,
    }
}

/// Reads an input as a text of a trace, and plays it with a thread for each processor.
pub fn run_on_threads<R: Threads + Wait + Sync, S: Source, K: Sink, G: Pace + Sync>(
    rt: &R,
    alloc: Global,
    input: &mut S,
    out: &mut K,
    natives: &Natives,
    pace: &G,
) -> Status
    ensures told { IfSome (S.left input.old) (λ bytes.
        RanOnThreads (entries natives.now) bytes (S.left input.new) result (K.held out.old) (K.held out.new)) }
    ensures read_fault { result ≡ Status.ReadFault →
        Rose (S.faults input.old) (S.faults input.new) × Appends (K.held out.old) (K.held out.new) [] }
    ensures faults { TellsFaults result (K.faults out.old) (K.faults out.new) }
    ensures memory { result ≡ Status.Memory → K.held out.new ≡ K.held out.old }
    ensures taken { TakesAtMost (2 ^ 24 + 1) (S.left input.old) (S.left input.new) }
    ensures input_count { S.faults input.old ≤ S.faults input.new }
    ensures input_stays { result ≢ Status.ReadFault → S.faults input.new ≡ S.faults input.old }
{
    let word = Serve {
        grammar: Grammar::Text,
        at_end: AtEnd::Free,
    };
    match read_input(alloc, word, input, out, natives) {
        Ok(Content::Trace(trace)) => answer_trace(rt, alloc, natives, trace, out, pace),
        // No text of a trace spells an image.
        Ok(Content::Image(_)) => unreachable!(),
        Err(status) => status,
    }
}
