//! An event that is done again, and noted.
ghost use Rattle.std.specs.Prelude.{◌≡◌, ◌≤◌, ◌^◌, [], ◌∷◌, ◌++◌, IfOk, Ok, true};
ghost use Rattle.event_journal.specs.Journal.{copied_bytes};
ghost use Rattle.event_journal.specs.declared.event.Event.TheVariants.{Entry, Exit};
ghost use Rattle.journal_notes.specs.Meaning.{AreKept, AreOn, IsNoted, IsNotedWithRoom, same_subject};
ghost use Rattle.journal_replay.specs.Replaying.{Does, HasDone, done_by};
ghost use Rattle.journal_replay.specs.Entering.{WasPrepared};
ghost use Rattle.journal_replay.specs.Visiting.{coming_of};
ghost use Rattle.kernel_state.specs.Entering.{CanEnter};

use crate::notes::EventNotes;
use base::NoMemory;
use event_journal::Event;
use journal_replay::{Prepared, Replay, Visitor, last_has_left};
use ns_ram::Read;
use smc_abi::Regs;
use std::alloc::Global;

/// Does an event again and notes it; whether it can have come next. After one that can't, and after want of memory, neither the
/// replay nor the notes are of further use.
pub(crate) fn note<N: EventNotes>(
    alloc: Global,
    replay: &mut Replay,
    event: &Event,
    notes: &mut N,
) -> Result<bool, NoMemory>
    requires few { copied_bytes (done_by replay.old ++ event.now ∷ []) ≤ 2 ^ 28 }
    requires on { AreOn N.meaning replay.old.at_work.core notes.old }
    ensures does { Does replay.old replay.new event.now result }
    ensures noted { result ≡ Ok true
        → IsNotedWithRoom N.meaning replay.old.at_work.core replay.new.at_work.core notes.old notes.new event.now }
    ensures subject { same_subject N.meaning notes.old notes.new }
{
    match event {
        Event::Entry {
            cpu,
            regs,
            steps,
            reads,
        } => {
            let visitor = Visitor {
                cpu: *cpu,
                regs: *regs,
                steps: *steps,
            };
            come_in(alloc, replay, visitor, reads.as_slice(), notes)
        }
        Event::Exit { cpu, regs } => go_out(alloc, replay, *cpu, regs, notes),
    }
}

/// A processor comes in, which read this.
fn come_in<N: EventNotes>(
    alloc: Global,
    replay: &mut Replay,
    visitor: Visitor,
    reads: &[Read],
    notes: &mut N,
) -> Result<bool, NoMemory>
    requires few { copied_bytes (done_by replay.old ++ Entry visitor.cpu visitor.regs visitor.steps reads.now ∷ []) ≤ 2 ^ 28 }
    requires on { AreOn N.meaning replay.old.at_work.core notes.old }
    ensures does { Does replay.old replay.new (Entry visitor.cpu visitor.regs visitor.steps reads.now) result }
    ensures noted { result ≡ Ok true → IsNotedWithRoom N.meaning replay.old.at_work.core replay.new.at_work.core notes.old
        notes.new (Entry visitor.cpu visitor.regs visitor.steps reads.now) }
    ensures subject { same_subject N.meaning notes.old notes.new }
{
    if !replay.lay_for(&visitor, reads) {
        return Ok(false);
    }
    let ready = replay.prepare(alloc, &visitor, reads)?;
    match ready {
        Some(prepared) => {
            admit(alloc, replay, visitor, prepared, notes)?;
            Ok(true)
        }
        None => Ok(false),
    }
}

/// A processor comes in as it was prepared, and is noted.
fn admit<N: EventNotes>(
    alloc: Global,
    replay: &mut Replay,
    visitor: Visitor,
    prepared: Prepared,
    notes: &mut N,
) -> Result<(), NoMemory>
    requires can { CanEnter replay.old.at_work.core (coming_of visitor) }
    requires prepared { WasPrepared replay.old.at_work.core.parts visitor.regs.a prepared }
    requires kept { AreKept N.meaning notes.old }
    ensures done { IfOk result (λ _. HasDone replay.old replay.new (Entry visitor.cpu visitor.regs visitor.steps prepared.reads)) }
    ensures noted { IfOk result (λ _. IsNoted N.meaning replay.old.at_work.core replay.new.at_work.core notes.old notes.new
        (Entry visitor.cpu visitor.regs visitor.steps prepared.reads)) }
    ensures subject { same_subject N.meaning notes.old notes.new }
{
    let arrival = notes.arrival(alloc, &replay.at_work.core, &visitor.regs, &prepared)?;
    replay.admit(alloc, visitor, prepared);
    let at_work = &replay.at_work;
    let ran = at_work.outgoing(visitor.cpu);
    notes.come_in(alloc, &at_work.core, visitor, arrival, ran)?;
    Ok(())
}

/// A processor goes out with these registers.
fn go_out<N: EventNotes>(
    alloc: Global,
    replay: &mut Replay,
    cpu: u8,
    regs: &Regs,
    notes: &mut N,
) -> Result<bool, NoMemory>
    ensures does { Does replay.old replay.new (Exit cpu regs.now) result }
    ensures noted { result ≡ Ok true → IsNoted N.meaning replay.old.at_work.core replay.new.at_work.core notes.old notes.new
        (Exit cpu regs.now) }
    ensures subject { same_subject N.meaning notes.old notes.new }
{
    if !replay.at_work.is_inside(cpu) {
        return Ok(false);
    }
    notes.go_out(alloc, &mut replay.at_work, cpu, &mut replay.lane)?;
    let events = replay.at_work.core.journal().as_slice();
    Ok(last_has_left(events, regs))
}
