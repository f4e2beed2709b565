//! What two journals show of the sessions that share one instance.
ghost use Rattle.std.specs.Prelude.{IfOk};
ghost use Rattle.compare_model.specs.Comparing.{IsComparedAs};
ghost use Rattle.compare_model.specs.declared.subject.Subject.TheVariants.{Group};
ghost use Rattle.native_tas.specs.Table.{entries};
ghost use Rattle.session_compare.specs.Pairs.{CanBeCompared, pair_of};

use crate::illegal::unless_illegal;
use crate::reading::compare_by;
use crate::realms::absent_in;
use base::NoMemory;
use compare_model::Compared;
use journal_bytes::ReadJournal;
use native_tas::Natives;
use realm_notes::LogReader;
use std::alloc::Global;
use uuid::Uuid;

/// Compares two journals on a group.
pub(crate) fn compare_group(
    alloc: Global,
    one: &ReadJournal,
    two: &ReadJournal,
    natives: &Natives,
    uuid: Uuid,
) -> Result<Compared, NoMemory>
    requires one { CanBeCompared (entries natives.now) one.now }
    requires two { CanBeCompared (entries natives.now) two.now }
    ensures { IfOk result (IsComparedAs (pair_of (entries natives.now) one.now two.now) (Group uuid)) }
{
    let made = LogReader::of_sessions(alloc, &one.boot, natives, uuid)?;
    let first = match made {
        Some(reader) => reader,
        None => return unless_illegal(alloc, one, two, natives, Compared::Absent(1)),
    };
    let other_made = LogReader::of_sessions(alloc, &two.boot, natives, uuid)?;
    let second = match other_made {
        Some(other_reader) => other_reader,
        None => {
            let of = absent_in(first.realm());
            return unless_illegal(alloc, one, two, natives, Compared::Absent(of));
        }
    };
    compare_by(alloc, one, two, natives, first, second)
}
