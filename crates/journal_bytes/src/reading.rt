//! Reading the bytes of a journal.

ghost use Rattle.std.specs.Prelude.{◌≡◌, ◌≤◌, ◌^◌, ℕ, length, IfOk, IfErr};
ghost use Rattle.journal_bytes.specs.Grammar.{IsFaultOf, IsFirstFault, IsReadUnlessMemory, IsRefusedUnlessMemory, Spells, Whole, whole_of};
ghost use Rattle.journal_bytes.specs.Recording.{HasNoItem, journal_so_far};
ghost use Rattle.journal_bytes.specs.Sound.{IsSoundJournal};
ghost use Rattle.journal_bytes.specs.Taking.{Ends, is_record};
ghost use Rattle.trace_text.specs.Sound.{IsSoundBoot};
ghost use Rattle.trace_text.specs.declared.fault.BadKind.{BadKind};

use crate::recording::Recording;
use crate::taking::take_record;
use crate::writing::{END, MAGIC};
use event_journal::Journal;
use std::alloc::Global;
use ta_isa::Boot;
use trace_bin::records::front_fault;
use trace_text::{BadKind, Trace, TraceFault};
use uuid::Uuid;

/// A journal that was read.
#[derive(Drop)]
pub struct ReadJournal {
    /// What the core was booted with.
    pub boot: Boot,
    /// Its events.
    pub journal: Journal,
    /// How many bytes spell it, up to and with its end.
    pub used: u32,
    /// How many records these are, the end among them.
    pub records: u32,
}

/// Whether a record stands here, and not the end, or nothing.
fn is_record(bytes: &[u8]) -> bool
    ensures { result ≡ is_record bytes.now }
{
    !bytes.is_empty() && bytes[0] != END
}

/// The journal, at its end, with which so many bytes and so many records have come.
fn finish(recording: Recording, used: u32, records: u32) -> Result<ReadJournal, BadKind>
    requires { HasNoItem recording }
    ensures { Ends result (journal_so_far recording) used records }
{
    let Recording { header, events } = recording;
    let Ok(Trace { boot, .. }) = header.finish() else {
        return Err(BadKind::Place);
    };
    match boot {
        Some(boot) => Ok(ReadJournal {
            boot,
            journal: events,
            used,
            records,
        }),
        None => Err(BadKind::Place),
    }
}

/// Reads the bytes of a journal up to and with its end; whatever stands behind it isn't looked at. `docs/formats.md` states
/// their format. `natives` are the UUIDs of the applications that are built in, which no record may repeat.
///
/// The first record with a fault decides, and in it the first kind in the order of [`BadKind`], but `Item` before `Cut`. `Bad`
/// has its place: 0 for the first four bytes, then the number of the record, counted from 1. Bytes that stop where a record or
/// the end should begin are [`BadKind::Cut`] there.
pub fn read_journal(
    alloc: Global,
    bytes: &[u8],
    natives: &[Uuid],
) -> Result<ReadJournal, TraceFault>
    requires { length bytes.now ≤ 2 ^ 28 }
    // What is read is spelled so.
    ensures found { IfOk result (λ read. Spells natives.now bytes.now (whole_of read)) }
    // What is spelled so is read, unless memory runs out.
    ensures only { (whole : Whole) → Spells natives.now bytes.now whole → IsReadUnlessMemory result whole }
    // A fault is the first one.
    ensures bad { IfErr result (IsFaultOf natives.now bytes.now) }
    // Bytes with a fault are refused by their first one, unless memory runs out.
    ensures refused { (place : ℕ) (kind : BadKind) → IsFirstFault natives.now bytes.now place kind
        → IsRefusedUnlessMemory result place kind }
    // What is read is within the limits: a core can be booted so, and the journal can be written again.
    ensures boot { IfOk result (λ read. IsSoundBoot natives.now read.boot) }
    ensures journal { IfOk result (λ read. IsSoundJournal read.boot.cpus read.journal.events) }
{
    if let Some(kind) = front_fault(&MAGIC, bytes) {
        return Err(TraceFault::Bad { place: 0, kind });
    }
    let mut recording = Recording::new(alloc);
    let mut place = 1u32;
    let mut rest = &bytes[4..];
    'records: while is_record(rest) {
        match take_record(alloc, natives, &mut recording, rest) {
            Ok(after) => rest = after,
            Err(fault) => return Err(fault.at(place)),
        }
        place += 1;
    }
    if rest.is_empty() {
        return Err(TraceFault::Bad {
            place,
            kind: BadKind::Cut,
        });
    }
    let used = bytes.len() + 1 - rest.len();
    match finish(recording, used as u32, place) {
        Ok(read) => Ok(read),
        Err(kind) => Err(TraceFault::Bad { place, kind }),
    }
}
