//! The log of somebody, read off the events of a journal one after the other, or whole.
ghost use Rattle.std.specs.Prelude.{◌≡◌, ◌≤◌, ◌^◌, [], ◌∷◌, ◌++◌, IfOk};
ghost use Rattle.audit_model.specs.Verdicts.{CanBegin};
ghost use Rattle.event_journal.specs.Journal.{copied_bytes};
ghost use Rattle.journal_notes.specs.Meaning.{AreOn};
ghost use Rattle.journal_notes.specs.Reading.{HasReadAll, Reads};
ghost use Rattle.journal_replay.specs.Replaying.{boot_of, done_by};

use crate::logged::{BoxedEntry, Logged, add_all};
use crate::notes::EventNotes;
use crate::noting::note;
use base::NoMemory;
use event_journal::Event;
use journal_replay::Replay;
use std::alloc::Global;

/// Reads an event: what it adds to the log of those whose notes these are; `None` where it can't have come next. After that, and
/// after want of memory, neither the replay nor the notes are of further use.
pub fn read<N: EventNotes>(
    alloc: Global,
    replay: &mut Replay,
    notes: &mut N,
    event: &Event,
) -> Result<Option<Vec<BoxedEntry<N::Event, N::Reply>>>, NoMemory>
    requires on { AreOn N.meaning replay.old.at_work.core notes.old }
    requires few { copied_bytes (done_by replay.old ++ event.now ∷ []) ≤ 2 ^ 28 }
    ensures { Reads N.meaning (record { replay = replay.old; notes = notes.old })
        (record { replay = replay.new; notes = notes.new }) event.now result }
{
    let can_be = note(alloc, replay, event, notes)?;
    if can_be {
        Ok(Some(notes.take_log(alloc)))
    } else {
        Ok(None)
    }
}

/// Reads the events of a journal, of which nothing is read so far: the whole log.
pub fn read_all<N: EventNotes>(
    alloc: Global,
    replay: &mut Replay,
    notes: &mut N,
    events: &[Event],
) -> Result<Vec<Logged<N::Event, N::Reply>>, NoMemory>
    requires can { CanBegin (boot_of replay.old) events.now }
    requires few { copied_bytes events.now ≤ 2 ^ 28 }
    requires nothing { done_by replay.old ≡ [] }
    requires on { AreOn N.meaning replay.old.at_work.core notes.old }
    ensures { IfOk result (λ log. HasReadAll N.meaning (record { replay = replay.old; notes = notes.old })
        (record { replay = replay.new; notes = notes.new }) events.now log.items) }
{
    let mut log = Vec::new(alloc);
    for event in events {
        let news = read(alloc, replay, notes, event)?;
        match news {
            Some(more) => add_all(&mut log, more)?,
            None => unreachable!(),
        }
    }
    Ok(log)
}
