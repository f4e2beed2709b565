//! Where two logs first differ, as they are read.
ghost use Rattle.std.specs.Prelude.{◌≡◌, ◌+◌, ◌↔◌, ◌∷◌, ◌++◌, [], IfOk, IsTrue, List, Option, true};
ghost use Rattle.session_compare.specs.Comparisons.{Compares, ShowsEvents, StandsBy, counted};
ghost use Rattle.session_compare.specs.declared.differing.Side.TheVariants.{First};

use base::NoMemory;
use compare_model::Compared;
use std::alloc::Global;
use std::collections::VecDeque;

/// Events of which two can be told apart.
pub(crate) trait SameEvent {
    /// Both are the same.
    fn is_same(&self, other: &Self) -> bool
        ensures { IsTrue result ↔ (self.now ≡ other.now) };
}

/// Which of the two logs.
#[derive(Clone, Copy)]
pub(crate) enum Side {
    /// The first.
    First,
    /// The second.
    Second,
}

/// Both are the same log.
fn is_same_side(one: Side, other: Side) -> bool
    ensures { IsTrue result ↔ (one ≡ other) }
{
    match (one, other) {
        (Side::First, Side::First) | (Side::Second, Side::Second) => true,
        _ => false,
    }
}

/// How two logs compare as far as they were read. Only what one of them has more than the other is kept.
#[derive(Drop)]
pub(crate) struct Comparison<E> {
    /// At how many places from the start both have the same event.
    same: u64,
    /// Whether both have an event at the next place, and another one.
    differ: bool,
    /// Which log has come further, where one has.
    ahead: Side,
    /// Its events from that place on, where the other has none.
    more: VecDeque<E>,
    /// How many replies the first log has.
    replies: u64,
}

/// One more. No list in memory has 2^64 elements.
fn one_more(count: u64) -> Result<u64, NoMemory>
    ensures { IfOk result (λ more. more ≡ count + 1) }
{
    if count == u64::MAX {
        Err(NoMemory)
    } else {
        Ok(count + 1)
    }
}

impl<E: SameEvent + Drop> Comparison<E> {
    /// Nothing is read of either log.
    pub(crate) fn new(alloc: Global) -> Comparison<E>
        ensures events { StandsBy First result [] [] result.differ }
        ensures replies { result.replies ≡ 0 }
    {
        Comparison {
            same: 0,
            differ: false,
            ahead: Side::First,
            more: VecDeque::new(alloc),
            replies: 0,
        }
    }

    /// Whether the first log has come further than the second.
    pub(crate) fn is_first_ahead(&self) -> bool {
        is_same_side(self.ahead, Side::First) && !self.are_level()
    }

    /// Both logs have an event at the next place, which is the same or not.
    fn meets(&mut self, is_same: bool) -> Result<(), NoMemory>
        ensures same { IsTrue is_same → IfOk result (λ _. self.new ≡ record self.old { same = self.old.same + 1 }) }
        ensures other { (IsTrue is_same → ⊥) → self.new ≡ record self.old { differ = true } }
    {
        if is_same {
            self.same = one_more(self.same)?;
        } else {
            self.differ = true;
        }
        Ok(())
    }

    /// The next event of one of the logs.
    fn take(&mut self, side: Side, event: E) -> Result<(), NoMemory>
        ensures events { (its other : List E) → StandsBy side self.old its other self.old.differ
            → IfOk result (λ _. StandsBy side self.new (its ++ event ∷ []) other self.new.differ) }
        ensures replies { IfOk result (λ _. self.new.replies ≡ self.old.replies) }
    {
        if self.differ {
            return Ok(());
        }
        if is_same_side(side, self.ahead) {
            self.more.push_back(event)?;
            return Ok(());
        }
        match self.more.pop_front() {
            Some(other) => {
                let is_same = event.is_same(&other);
                self.meets(is_same)
            }
            None => {
                self.ahead = side;
                self.more.push_back(event)?;
                Ok(())
            }
        }
    }

    /// Neither log has come further than the other.
    fn are_level(&self) -> bool
        ensures { IsTrue result ↔ (self.now.more.items ≡ []) }
    {
        self.more.is_empty()
    }

    /// What the events show, where both logs are whole.
    pub(crate) fn shown(&self) -> Compared
        ensures { (one two : List E) → StandsBy First self.now one two self.now.differ → ShowsEvents one two self.now.replies result }
    {
        if self.differ {
            return Compared::Events(self.same);
        }
        if self.are_level() {
            Compared::Same(self.replies)
        } else {
            Compared::Events(self.same)
        }
    }
}

/// Counts a reply of the first log, if there is one.
fn count_reply<E>(
    comparison: &mut Comparison<E>,
    side: Side,
    is_reply: bool,
) -> Result<(), NoMemory>
    ensures { IfOk result (λ _. comparison.new ≡ record comparison.old { replies = counted side comparison.old.replies is_reply }) }
{
    match side {
        Side::First => {
            if is_reply {
                comparison.replies = one_more(comparison.replies)?;
            }
        }
        Side::Second => {}
    }
    Ok(())
}

/// The next entry of one of the logs.
fn add_entry<E: SameEvent + Drop, R: Drop>(
    comparison: &mut Comparison<E>,
    side: Side,
    logged: (E, Option<R>),
) -> Result<(), NoMemory>
    ensures { (its other : List (E × Option R)) → Compares side comparison.old its other
        → IfOk result (λ _. Compares side comparison.new (its ++ logged ∷ []) other) }
{
    let (event, reply) = logged;
    count_reply(comparison, side, reply.is_some())?;
    comparison.take(side, event)
}

/// One of the logs goes on with these.
pub(crate) fn add<E: SameEvent + Drop, R: Drop>(
    comparison: &mut Comparison<E>,
    side: Side,
    news: Vec<(E, Option<R>)>,
) -> Result<(), NoMemory>
    ensures { (its other : List (E × Option R)) → Compares side comparison.old its other
        → IfOk result (λ _. Compares side comparison.new (its ++ news.items) other) }
{
    for logged in news {
        add_entry(comparison, side, logged)?;
    }
    Ok(())
}
