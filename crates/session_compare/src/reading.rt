//! Reading a log off two journals, and comparing both on the way.
ghost use Rattle.std.specs.Prelude.{◌≡◌, ◌≤◌, ◌^◌, ◌↔◌, [], ◌∷◌, ◌++◌, IfOk, IsTrue, List, Option, length, take};
ghost use Rattle.compare_model.specs.Comparing.{AreShownAs, CanBeBoth, Pair, Shown, core_of};
ghost use Rattle.event_journal.specs.Journal.{copied_bytes};
ghost use Rattle.event_journal.specs.declared.event.Event.{Event as AnyEvent};
ghost use Rattle.kernel_model.specs.Application.{Booted, booted};
ghost use Rattle.native_tas.specs.Table.{entries};
ghost use Rattle.session_compare.specs.Comparisons.{Compares};
ghost use Rattle.session_compare.specs.Logs.{IsLoggedAs};
ghost use Rattle.session_compare.specs.Pairs.{CanBeCompared, pair_of};
ghost use Rattle.session_compare.specs.declared.differing.Side.TheVariants.{First};
ghost use Rattle.session_compare.specs.Reading.{AreReadSo, HasCaughtUp, IsBegun, IsReadUpTo, IsUnread, Reads, SoFar};

use crate::apart::{is_same_key, told_apart};
use crate::differing::{Comparison, SameEvent, Side, add};
use crate::illegal::illegal_two;
use base::NoMemory;
use compare_model::Compared;
use event_journal::Event;
use journal_bytes::ReadJournal;
use kernel_state::Application;
use native_tas::Natives;
use std::alloc::Global;

/// What reads a log off the events of a journal, one after the other.
pub(crate) trait ReadsLog {
    /// What the log says that happened.
    type LogEvent: SameEvent + Drop;

    /// What it says that was answered.
    type LogReply: Drop;

    // By what it is told whose log it is.
    ghost Whose: { Type 0 };

    // How far the journal was read.
    ghost so_far: { Self → SoFar Self.Whose Self.LogEvent Self.LogReply };

    // What a journal of a core of this boot with these events shows of whom the log is.
    ghost shown: { Booted → List AnyEvent → Self.Whose → Shown Self.LogEvent Self.LogReply };

    /// Reads an event: what it adds to the log; `None` where it can't have come next. After that, and after want of memory, the
    /// reader is of no further use.
    fn read(
        &mut self,
        alloc: Global,
        event: &Event,
    ) -> Result<Option<Vec<(Self::LogEvent, Option<Self::LogReply>)>>, NoMemory>
        requires fits { (so_far self.old).fits }
        requires few { copied_bytes ((so_far self.old).events ++ event.now ∷ []) ≤ 2 ^ 28 }
        ensures { Reads (so_far self.old) (so_far self.new) event.now result };

    /// The application, where what was read shows one that is compared.
    fn compared_app(self) -> Result<Option<Application>, NoMemory>
        requires { (so_far self).fits }
        ensures { IfOk result (λ app. IsLoggedAs (shown (so_far self).boot (so_far self).events (so_far self).whose) app (so_far self).log) };
}

/// How far the second journal was read.
#[derive(Clone, Copy)]
pub(crate) enum CaughtUp {
    /// Up to the event of this number.
    UpTo(usize),
    /// The event of this number can't be.
    Ends(u64),
}

/// What came of reading two journals.
#[derive(Drop)]
pub(crate) enum ReadSo<E> {
    /// Both were read, and their logs compare so.
    Whole(Comparison<E>),
    /// The event of this number can't be in the first.
    FirstEnds(u64),
    /// The event of this number can't be in the second.
    SecondEnds(u64),
}

/// Reads the second journal on from an event, to the end or as far as the comparison needs it.
fn catch_up<L: ReadsLog>(
    alloc: Global,
    second: &mut L,
    others: &[Event],
    next: usize,
    comparison: &mut Comparison<L::LogEvent>,
    to_the_end: bool,
) -> Result<CaughtUp, NoMemory>
    requires reading { IsReadUpTo (L.so_far second.old) (take next others.now) (L.so_far second.old) }
    requires within { next ≤ length others.now }
    requires few { copied_bytes others.now ≤ 2 ^ 28 }
    ensures { (one : List (L.LogEvent × Option L.LogReply)) → Compares First comparison.old one (L.so_far second.old).log
        → IfOk result (HasCaughtUp (L.so_far second.old) (L.so_far second.new) others.now one comparison.new to_the_end) }
{
    let mut at = next;
    while at < others.len() {
        if !to_the_end {
            if !comparison.is_first_ahead() {
                return Ok(CaughtUp::UpTo(at));
            }
        }
        let read = second.read(alloc, &others[at])?;
        match read {
            Some(news) => add(comparison, Side::Second, news)?,
            None => return Ok(CaughtUp::Ends(at as u64)),
        }
        at += 1;
    }
    Ok(CaughtUp::UpTo(at))
}

/// Reads a log off two journals of which nothing is read so far, and compares both on the way.
fn read_both<L: ReadsLog>(
    alloc: Global,
    first: &mut L,
    events: &[Event],
    second: &mut L,
    others: &[Event],
) -> Result<ReadSo<L::LogEvent>, NoMemory>
    requires first { IsUnread (L.so_far first.old) }
    requires second { IsUnread (L.so_far second.old) }
    requires few { copied_bytes events.now ≤ 2 ^ 28 }
    requires few_too { copied_bytes others.now ≤ 2 ^ 28 }
    ensures { IfOk result (AreReadSo (L.so_far first.old) (L.so_far first.new) events.now (L.so_far second.old) (L.so_far second.new) others.now) }
{
    let mut comparison = Comparison::new(alloc);
    let mut next = 0;
    for (at, event) in events.iter().enumerate() {
        let read = first.read(alloc, event)?;
        match read {
            Some(news) => add(&mut comparison, Side::First, news)?,
            None => return Ok(ReadSo::FirstEnds(at as u64)),
        }
        let caught = catch_up(alloc, second, others, next, &mut comparison, false)?;
        match caught {
            CaughtUp::UpTo(place) => next = place,
            CaughtUp::Ends(place) => return Ok(ReadSo::SecondEnds(place)),
        }
    }
    let rest = catch_up(alloc, second, others, next, &mut comparison, true)?;
    match rest {
        CaughtUp::UpTo(_) => Ok(ReadSo::Whole(comparison)),
        CaughtUp::Ends(place) => Ok(ReadSo::SecondEnds(place)),
    }
}

/// What two logs show, by the applications, where they are there, and the comparison; the boots have one key or not.
fn compare_logs<L: ReadsLog>(
    app: Option<Application>,
    other: Option<Application>,
    one_key: bool,
    comparison: Comparison<L::LogEvent>,
) -> Compared
    ensures { (pair : Pair) (one two : Shown L.LogEvent L.LogReply) (log log_too : List (L.LogEvent × Option L.LogReply))
        → CanBeBoth pair → IsLoggedAs one app log → IsLoggedAs two other log_too → Compares First comparison log log_too
        → (IsTrue one_key ↔ (pair.one.boot.key ≡ pair.two.boot.key)) → AreShownAs pair one two result }
{
    match told_apart(&app, &other, one_key) {
        Some(told) => told,
        None => comparison.shown(),
    }
}

/// Compares two journals by what reads the same log off each, of which nothing is read so far.
pub(crate) fn compare_by<L: ReadsLog + Drop>(
    alloc: Global,
    one: &ReadJournal,
    two: &ReadJournal,
    natives: &Natives,
    mut first: L,
    mut second: L,
) -> Result<Compared, NoMemory>
    requires one { CanBeCompared (entries natives.now) one.now }
    requires two { CanBeCompared (entries natives.now) two.now }
    requires first { IsBegun (booted one.now.boot (entries natives.now)) (L.so_far first) }
    requires second { IsBegun (booted two.now.boot (entries natives.now)) (L.so_far second) }
    ensures { let pair = pair_of (entries natives.now) one.now two.now in
        IfOk result (AreShownAs pair (L.shown (core_of pair pair.one) pair.one.events (L.so_far first).whose)
        (L.shown (core_of pair pair.two) pair.two.events (L.so_far second).whose)) }
{
    let events = one.journal.as_slice();
    let others = two.journal.as_slice();
    let read = read_both(alloc, &mut first, events, &mut second, others)?;
    match read {
        ReadSo::Whole(comparison) => {
            let app = first.compared_app()?;
            let other = second.compared_app()?;
            let one_key = is_same_key(&one.boot.key, &two.boot.key);
            Ok(compare_logs::<L>(app, other, one_key, comparison))
        }
        ReadSo::FirstEnds(at) => Ok(Compared::Illegal { journal: 1, at }),
        ReadSo::SecondEnds(at) => illegal_two(alloc, one, natives, at),
    }
}
