//! Reading a journal, or two one behind the other, up to the end of the bytes.
ghost use Rattle.std.specs.Prelude.{◌≤◌, ◌^◌, IfErr, IfOk, length};
ghost use Rattle.journal_bytes.specs.Grammar.{whole_of};
ghost use Rattle.journal_runner.specs.Reading.{IsFaultAloneOf, IsFaultOfPairOf, KeepsLimits, SpellsAlone, SpellsPair};

use journal_bytes::{BadKind, ReadJournal, TraceFault, read_journal};
use std::alloc::Global;
use uuid::Uuid;

/// Reads a journal beside built-in applications of these UUIDs, up to the end of the bytes.
pub fn read_alone(alloc: Global, bytes: &[u8], natives: &[Uuid]) -> Result<ReadJournal, TraceFault>
    requires { length bytes.now ≤ 2 ^ 28 }
    ensures found { IfOk result (λ read. SpellsAlone natives.now bytes.now (whole_of read)) }
    ensures bad { IfErr result (IsFaultAloneOf natives.now bytes.now) }
    ensures limits { IfOk result (KeepsLimits natives.now) }
{
    let read = read_journal(alloc, bytes, natives)?;
    if (read.used as usize) < bytes.len() {
        return Err(TraceFault::Bad {
            place: read.records + 1,
            kind: BadKind::Item,
        });
    }
    Ok(read)
}

/// Two journals that were read.
#[derive(Drop)]
pub struct ReadPair {
    pub one: ReadJournal,
    pub two: ReadJournal,
}

/// Reads two journals beside built-in applications of these UUIDs, the second right behind the end of the first and up to the end of
/// the bytes. Places go on counting in the second, whose first four bytes have the place after the first's end.
pub fn read_pair(alloc: Global, bytes: &[u8], natives: &[Uuid]) -> Result<ReadPair, TraceFault>
    requires { length bytes.now ≤ 2 ^ 28 }
    ensures found { IfOk result (λ pair. SpellsPair natives.now bytes.now (whole_of pair.one) (whole_of pair.two)) }
    ensures bad { IfErr result (IsFaultOfPairOf natives.now bytes.now) }
    ensures limits { IfOk result (λ pair. KeepsLimits natives.now pair.one × KeepsLimits natives.now pair.two) }
{
    let one = read_journal(alloc, bytes, natives)?;
    match read_alone(alloc, &bytes[one.used as usize..], natives) {
        Ok(two) => Ok(ReadPair { one, two }),
        Err(TraceFault::Bad { place, kind }) => Err(TraceFault::Bad {
            place: one.records + 1 + place,
            kind,
        }),
        Err(TraceFault::Memory) => Err(TraceFault::Memory),
    }
}
