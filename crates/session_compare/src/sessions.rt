//! What two journals show of a session.
ghost use Rattle.std.specs.Prelude.{IfOk};
ghost use Rattle.compare_model.specs.Comparing.{IsComparedAs};
ghost use Rattle.compare_model.specs.declared.subject.Subject.TheVariants.{Session};
ghost use Rattle.native_tas.specs.Table.{entries};
ghost use Rattle.session_compare.specs.Pairs.{CanBeCompared, pair_of};

use crate::reading::compare_by;
use base::NoMemory;
use compare_model::Compared;
use journal_bytes::ReadJournal;
use native_tas::Natives;
use realm_notes::LogReader;
use std::alloc::Global;

/// Compares two journals on a session.
pub(crate) fn compare_session(
    alloc: Global,
    one: &ReadJournal,
    two: &ReadJournal,
    natives: &Natives,
    session: u32,
) -> Result<Compared, NoMemory>
    requires one { CanBeCompared (entries natives.now) one.now }
    requires two { CanBeCompared (entries natives.now) two.now }
    ensures { IfOk result (IsComparedAs (pair_of (entries natives.now) one.now two.now) (Session session)) }
{
    let first = LogReader::of_session(alloc, &one.boot, natives, session)?;
    let second = LogReader::of_session(alloc, &two.boot, natives, session)?;
    compare_by(alloc, one, two, natives, first, second)
}
