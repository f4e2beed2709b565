//! Comparing two journals.
ghost use Rattle.std.specs.Prelude.{IfOk};
ghost use Rattle.compare_model.specs.Comparing.{HaveSameReplies, IsComparedAs};
ghost use Rattle.compare_model.specs.declared.subject.Subject.TheVariants.{Group, Session};
ghost use Rattle.native_tas.specs.Table.{entries};
ghost use Rattle.session_compare.specs.Pairs.{CanBeCompared, pair_of};

use crate::groups::compare_group;
use crate::sessions::compare_session;
use base::NoMemory;
use compare_model::{Compared, Subject};
use journal_bytes::ReadJournal;
use native_tas::Natives;
use std::alloc::Global;
use uuid::Uuid;

/// What two journals show of a session or of a group, as [`compare`] and [`compare_groups`] say.
pub fn compare_on(
    alloc: Global,
    one: &ReadJournal,
    two: &ReadJournal,
    natives: &Natives,
    subject: Subject,
) -> Result<Compared, NoMemory>
    requires one { CanBeCompared (entries natives.now) one.now }
    requires two { CanBeCompared (entries natives.now) two.now }
    ensures compared { IfOk result (IsComparedAs (pair_of (entries natives.now) one.now two.now) subject) }

    // Where both show the same of it, it was answered the same.
    ensures same_replies { IfOk result (HaveSameReplies (pair_of (entries natives.now) one.now two.now) subject) }
{
    match subject {
        Subject::Session(session) => compare_session(alloc, one, two, natives, session),
        Subject::Group(uuid) => compare_group(alloc, one, two, natives, uuid),
    }
}

/// What two journals show of the session of this number, beside the applications that are built in: which of them, 1 or 2, is the
/// first that is no legal and steady history, and at which event; in which of them the number was given to no session whose
/// application gives each an instance of its own; that its applications or the keys differ; the own event, from 0, that first
/// differs; or how many replies it got in both. The boots and the events are such as [`audit::check`] takes, as are those that
/// [`journal_bytes::read_journal`] gives. `NoMemory` where memory is wanting.
pub fn compare(
    alloc: Global,
    one: &ReadJournal,
    two: &ReadJournal,
    natives: &Natives,
    session: u32,
) -> Result<Compared, NoMemory>
    requires one { CanBeCompared (entries natives.now) one.now }
    requires two { CanBeCompared (entries natives.now) two.now }
    ensures compared { IfOk result (IsComparedAs (pair_of (entries natives.now) one.now two.now) (Session session)) }

    // Where both show the same of it, it was answered the same.
    ensures same_replies { IfOk result (HaveSameReplies (pair_of (entries natives.now) one.now two.now) (Session session)) }
{
    compare_on(alloc, one, two, natives, Subject::Session(session))
}

/// What two journals show of the sessions of the application of this UUID, which share one instance, beside the applications that
/// are built in: which of them, 1 or 2, is the first that is no legal and steady history, and at which event; in which of them the
/// boot has no such application; that the images or the keys differ; the event of these sessions, from 0, that first differs; or how
/// many replies they got in both. The boots and the events are such as [`audit::check`] takes, as are those that
/// [`journal_bytes::read_journal`] gives. `NoMemory` where memory is wanting.
pub fn compare_groups(
    alloc: Global,
    one: &ReadJournal,
    two: &ReadJournal,
    natives: &Natives,
    uuid: Uuid,
) -> Result<Compared, NoMemory>
    requires one { CanBeCompared (entries natives.now) one.now }
    requires two { CanBeCompared (entries natives.now) two.now }
    ensures compared { IfOk result (IsComparedAs (pair_of (entries natives.now) one.now two.now) (Group uuid)) }

    // Where both show the same of them, they were answered the same.
    ensures same_replies { IfOk result (HaveSameReplies (pair_of (entries natives.now) one.now two.now) (Group uuid)) }
{
    compare_on(alloc, one, two, natives, Subject::Group(uuid))
}
