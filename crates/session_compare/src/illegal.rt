//! Two journals of which one can't be, or has no group to compare.
ghost use Rattle.std.specs.Prelude.{IfOk};
ghost use Rattle.compare_model.specs.Comparing.{CanBeBoth, IsComparedAs};
ghost use Rattle.compare_model.specs.declared.subject.Subject.{Subject as AnySubject};
ghost use Rattle.audit_model.specs.Verdicts.{IsIllegalAt};
ghost use Rattle.journal_bytes.specs.declared.reading.ReadJournal.{ReadJournal as AnyReadJournal};
ghost use Rattle.kernel_model.specs.Application.{booted};
ghost use Rattle.native_tas.specs.Table.{entries};
ghost use Rattle.session_compare.specs.Pairs.{CanBeCompared, IsToldIllegal, pair_of};

use audit::check;
use audit_model::Verdict;
use base::NoMemory;
use compare_model::Compared;
use journal_bytes::ReadJournal;
use native_tas::Natives;
use std::alloc::Global;

/// What is told where the event of this number can't be in the second journal: the first may have one too.
pub(crate) fn illegal_two(
    alloc: Global,
    one: &ReadJournal,
    natives: &Natives,
    at: u64,
) -> Result<Compared, NoMemory>
    requires { CanBeCompared (entries natives.now) one.now }
    ensures { (two : AnyReadJournal) → IsIllegalAt (booted two.boot (entries natives.now)) two.journal.events at
        → IfOk result (IsToldIllegal (pair_of (entries natives.now) one.now two)) }
{
    let verdict = check(alloc, &one.boot, natives, &one.journal)?;
    match verdict {
        Verdict::Legal => Ok(Compared::Illegal { journal: 2, at }),
        Verdict::Illegal(at) => Ok(Compared::Illegal { journal: 1, at }),
    }
}

/// Tells this, where it holds of two journals that can be; or which of them can't.
pub(crate) fn unless_illegal(
    alloc: Global,
    one: &ReadJournal,
    two: &ReadJournal,
    natives: &Natives,
    told: Compared,
) -> Result<Compared, NoMemory>
    requires one { CanBeCompared (entries natives.now) one.now }
    requires two { CanBeCompared (entries natives.now) two.now }
    ensures { (subject : AnySubject) → (CanBeBoth (pair_of (entries natives.now) one.now two.now)
        → IsComparedAs (pair_of (entries natives.now) one.now two.now) subject told)
        → IfOk result (IsComparedAs (pair_of (entries natives.now) one.now two.now) subject) }
{
    let verdict = check(alloc, &one.boot, natives, &one.journal)?;
    let other = check(alloc, &two.boot, natives, &two.journal)?;
    match verdict {
        Verdict::Illegal(at) => Ok(Compared::Illegal { journal: 1, at }),
        Verdict::Legal => match other {
            Verdict::Illegal(at) => Ok(Compared::Illegal { journal: 2, at }),
            Verdict::Legal => Ok(told),
        },
    }
}
