//! The top call without threads.

ghost use Rattle.std.specs.Prelude.{◌≡◌, ◌≤◌, ℕ};
ghost use Rattle.word_parts.specs.BuiltIn.{built_in};
ghost use Rattle.word_parts.specs.Faults.{TellsFaults};
ghost use Rattle.alone_runner.specs.Commands.{alone_commands};
ghost use Rattle.alone_runner.specs.Run.{Worked};
ghost use Rattle.alone_runner.specs.TopCall.{IsAnswered};
ghost use Rattle.alone_runner.specs.Words.{Asks, IsWithin, Reads};
ghost use Rattle.alone_runner.specs.declared.command.Command.{Command as AnyCommand};
ghost use Rattle.alone_runner.specs.declared.command.Command.TheVariants.{Work};

use crate::at_end::AtEnd;
use crate::command::{Command, command_of};
use crate::serving::Serve;
use crate::work::summary;
use client_runner::Client;
use journal_runner::{Audit, Compare, Record};
use native_tas::Natives;
use notify_runner::Notify;
use ports::{Sink, Source};
use std::alloc::Global;
use word_parts::{Status, answer_line, run_word};

const USAGE_LINE: &[u8] = b"usage: optee_run run | run-binary | threads | asm | work SEED COUNT\n";

/// Writes the summary of a made trace.
fn answer_work<K: Sink>(alloc: Global, seed: u64, count: u32, out: &mut K) -> Status
    requires { count ≤ 65536 }
    ensures worked { Worked seed count result (K.held out.old) (K.held out.new) }
    ensures reads { result ≡ Status.ReadFault → ⊥ }
    ensures faults { TellsFaults result (K.faults out.old) (K.faults out.new) }
{
    match summary(alloc, seed, count) {
        Ok(line) => answer_line(out, Status::Ok, line.as_slice()),
        Err(_) => Status::Memory,
    }
}

/// Does what a command says.
fn run_command<S: Source, K: Sink>(
    alloc: Global,
    command: Command,
    input: &mut S,
    out: &mut K,
    natives: &Natives,
    at_end: AtEnd,
) -> Status
    requires { IsWithin command }
    ensures answered { IsAnswered (alone_commands (built_in natives.now)) (λ (asked : AnyCommand). asked ≡ command) (record {
      result = result;
      told = S.left input.old;
      left = S.left input.new;
      old = K.held out.old;
      new = K.held out.new;
      source_old = S.faults input.old;
      source_new = S.faults input.new;
      sink_old = K.faults out.old;
      sink_new = K.faults out.new;
    }) }
    ensures untouched { (Reads command → ⊥) → input.new ≡ input.old }
{
    match command {
        Command::Serve(grammar) => run_word(alloc, Serve { grammar, at_end }, input, out, natives),
        Command::Record => run_word(alloc, Record, input, out, natives),
        Command::Audit => run_word(alloc, Audit, input, out, natives),
        Command::Compare { subject } => run_word(alloc, Compare { subject }, input, out, natives),
        Command::Notify => run_word(alloc, Notify, input, out, natives),
        Command::Client => run_word(alloc, Client, input, out, natives),
        Command::Work { seed, count } => answer_work(alloc, seed, count, out),
    }
}

/// Does what the words ask for. `run` reads a trace as text from the input and plays it on one core, beside
/// the applications that are built in, `run-binary` reads it as records, and `asm` reads a text of the assembler and prints
/// its image in hexadecimal. `record` reads a trace as text, plays it, and writes the bytes of its journal; `audit` reads these and
/// writes the verdict on them; `compare ID` reads the bytes of two journals and writes what they show of a session, and
/// `compare UUID` what they show of the sessions of an application that share its instance. `notify` reads a trace with signals as
/// text and plays it beside the drivers that are built in. `client` reads a client's script as text, makes its calls on one core,
/// and prints what each comes to. `work SEED COUNT` reads nothing: it plays the trace that the seed makes with so many calls,
/// without built-in applications, and prints a line that sums it up. Any other words are answered with the usage line, and so is
/// `threads`.
///
/// The words are tested first, then the input is read to its end, then its length, its grammar and the number of its
/// SMC items, of a script that of its calls, are tested, then it is played; the first answer met ends the call. The lines of a
/// play are gathered and put 64 KiB at a time, the last of them before the status is answered. Want of memory may come at any
/// time; lines that are not put by then are lost.
///
/// `run` and `run-binary` end with a trace that they have played as `at_end` says; all that other words take is free at the return.
pub fn run_alone<S: Source, K: Sink>(
    alloc: Global,
    words: &[String],
    input: &mut S,
    out: &mut K,
    natives: &Natives,
    at_end: AtEnd,
) -> Status
    ensures answered { IsAnswered (alone_commands (built_in natives.now)) (Asks words.now) (record {
      result = result;
      told = S.left input.old;
      left = S.left input.new;
      old = K.held out.old;
      new = K.held out.new;
      source_old = S.faults input.old;
      source_new = S.faults input.new;
      sink_old = K.faults out.old;
      sink_new = K.faults out.new;
    }) }
    // For a made trace nothing is read.
    ensures untouched { (seed count : ℕ) → Asks words.now (Work seed count) → input.new ≡ input.old }
{
    match command_of(words) {
        Some(command) => run_command(alloc, command, input, out, natives, at_end),
        None => answer_line(out, Status::Usage, USAGE_LINE),
    }
}
