//! The top call.

ghost use Rattle.std.specs.Prelude.{◌≡◌, ◌↔◌, ℕ, [], ◌∷◌, IsTrue};
ghost use Rattle.word_parts.specs.BuiltIn.{built_in};
ghost use Rattle.alone_runner.specs.TopCall.{IsAnswered};
ghost use Rattle.alone_runner.specs.declared.command.Command.TheVariants.{Work};
ghost use Rattle.trace_runner.specs.Commands.{Alone, Asks, SayThreads, Threads as OnThreads, top_commands};

use crate::threads::run_on_threads;
use alone_runner::{AtEnd, run_alone};
use native_tas::Natives;
use ports::{Pace, Sink, Source};
use std::alloc::Global;
use std::sync::Wait;
use std::thread::Threads;
use word_parts::Status;

/// Whether a word is `threads`.
#[tactic(auto, using(crate::proofs::TopCalls::is_threads))]
fn is_threads(word: &str) -> bool
    ensures { IsTrue result ↔ SayThreads (word.now ∷ []) }
{
    word == "threads"
}

/// Whether these words are the one word `threads`.
fn asks_threads(words: &[String]) -> bool
    ensures { IsTrue result ↔ Asks words.now OnThreads }
{
    match words {
        [word] => is_threads(word.as_str()),
        _ => false,
    }
}

/// Does what the words ask for. `threads` reads a trace as text from the input, and each processor plays its items in a thread
/// of its own, on one core that they share, beside the applications that are built in; once all threads have ended, a block
/// of lines is put for each processor. Work for which no thread can be started is done by the caller. All other words are
/// answered as by [`run_alone`], which ends with what was played as `at_end` says; `threads` frees it.
///
/// The pace is called by each processor between the entry and the exit of each of its calls. The call waits for its threads,
/// and they for their turns.
pub fn run<R: Threads + Wait + Sync, S: Source, K: Sink, G: Pace + Sync>(
    rt: &R,
    alloc: Global,
    words: &[String],
    input: &mut S,
    out: &mut K,
    natives: &Natives,
    pace: &G,
    at_end: AtEnd,
) -> Status
    ensures answered { IsAnswered (top_commands (built_in natives.now)) (Asks words.now) (record {
      result = result;
      told = S.left input.old;
      left = S.left input.new;
      old = K.held out.old;
      new = K.held out.new;
      source_old = S.faults input.old;
      source_new = S.faults input.new;
      sink_old = K.faults out.old;
      sink_new = K.faults out.new;
    }) }
    // For a made trace nothing is read.
    ensures untouched { (seed count : ℕ) → Asks words.now (Alone (Work seed count)) → input.new ≡ input.old }
{
    if asks_threads(words) {
        run_on_threads(rt, alloc, input, out, natives, pace)
    } else {
        run_alone(alloc, words, input, out, natives, at_end)
    }
}
