//! The steps of a turn, each on one seat.
ghost use Rattle.std.specs.Prelude.{◌≡◌, ◌<◌, [], ◌∷◌, length, All, Some, None, MatchBool};
ghost use Rattle.core_lock.specs.declared.view.Stand.TheVariants.{Outside, Waits};
ghost use Rattle.core_lock.specs.Steps.{with_ticket, with_none, split_left, split_right, joined, Begins, CanCount, CanServe, IsSameSeat, with_entries};
ghost use Rattle.atomic_table.specs.Table.{rest};
ghost use Rattle.core_lock.specs.Rule.{IsRecord};

use super::CoreLock;
use crate::held::Held;
use crate::pass::LockSeat;
use crate::rule::{Counts, Deals, Draws, Gathers, Looks, Serves};
use base::Logged;
use std::sync::Wait;
use std::thread;

/// The word with the ticket that the next who comes draws.
const NEXT: usize = 0;

/// The word with the ticket whose turn it is.
const SERVING: usize = 1;

/// The word with the number of entries.
const LENGTH: usize = 2;

/// The slot of the value.
const VALUE: usize = 0;

impl<T: Logged> CoreLock<T> {
    // Draws a ticket.
    pub(crate) fn draw(&self, seat: &mut LockSeat<T>) -> u64
        requires own { seat.old.table_id ≡ self.now.table.shared.table_id }
        requires outside { (seat.old.me.0.stand ≡ Outside) × (0 < length seat.old.me.0.records) }
        ensures same { IsSameSeat seat.old seat.new }
        ensures drawn { seat.new.me ≡ (with_ticket result seat.old.me.0, seat.old.me.1) }
    {
        self.table.shared.fetch_add::<Draws>(seat, NEXT, 1)
    }

    // Whether it is the ticket's turn. If so, the seat has taken the slot.
    fn look(&self, seat: &mut LockSeat<T>, ticket: u64) -> bool
        requires own { seat.old.table_id ≡ self.now.table.shared.table_id }
        requires waits { (seat.old.me.0.stand ≡ Waits ticket) × (0 < length seat.old.me.0.records) }
        ensures same { IsSameSeat seat.old seat.new }
        ensures turn { MatchBool result (Begins T.entries T.maker T.basis ticket seat.old.me seat.new.me) (seat.new.me ≡ seat.old.me) }
    {
        self.table.shared.load::<Looks<T>>(seat, SERVING) == ticket
    }

    // Looks until it is the ticket's turn.
    pub(crate) fn wait_for(&self, rt: &impl Wait, seat: &mut LockSeat<T>, ticket: u64)
        requires own { seat.old.table_id ≡ self.now.table.shared.table_id }
        requires waits { (seat.old.me.0.stand ≡ Waits ticket) × (0 < length seat.old.me.0.records) }
        ensures same { IsSameSeat seat.old seat.new }
        ensures turn { Begins T.entries T.maker T.basis ticket seat.old.me seat.new.me }
    {
        for _ in rt.forever() {
            if self.look(seat, ticket) {
                return;
            }
            thread::yield_now();
        }
        unreachable!()
    }

    // Takes the value out of the slot.
    pub(crate) fn take(&self, seat: &mut LockSeat<T>) -> Held<T>
        requires own { seat.old.table_id ≡ self.now.table.shared.table_id }
        requires held { (x : T) × (seat.old.me.1 ≡ (0, Some x) ∷ []) }
        ensures same { IsSameSeat seat.old seat.new }
        ensures value { seat.old.me.1 ≡ (0, Some result) ∷ [] }
        ensures empty { seat.new.me ≡ (seat.old.me.0, (0, None) ∷ []) }
    {
        let Some(value) = self.table.shared.exchange(seat, VALUE, None) else {
            unreachable!()
        };
        value
    }

    // Puts the value into the slot.
    pub(crate) fn put(&self, seat: &mut LockSeat<T>, value: Held<T>)
        requires own { seat.old.table_id ≡ self.now.table.shared.table_id }
        requires empty { seat.old.me.1 ≡ (0, None) ∷ [] }
        ensures same { IsSameSeat seat.old seat.new }
        ensures value { seat.new.me ≡ (seat.old.me.0, (0, Some value) ∷ []) }
    {
        match self.table.shared.exchange(seat, VALUE, Some(value)) {
            None => {}
            Some(_left) => unreachable!(),
        }
    }

    // Stores how many entries the value in the slot has. This adds them to the history.
    pub(crate) fn count(&self, seat: &mut LockSeat<T>, entries: u64)
        requires own { seat.old.table_id ≡ self.now.table.shared.table_id }
        requires value { CanCount T.entries T.maker seat.old.me entries }
        ensures same { IsSameSeat seat.old seat.new }
        ensures value { (x : T) → seat.old.me.1 ≡ (0, Some x) ∷ [] → (seat.new.me ≡ (with_entries T.maker (T.entries x) seat.old.me.0, seat.old.me.1)) × All (IsRecord T.maker seat.old.me.0.seen) seat.old.me.0.records }
    {
        self.table.shared.store::<Counts<T>>(seat, LENGTH, entries);
    }

    // Ends the turn: the slot goes back, and the next ticket is served.
    pub(crate) fn serve(&self, seat: &mut LockSeat<T>)
        requires own { seat.old.table_id ≡ self.now.table.shared.table_id }
        requires value { CanServe T.entries T.basis seat.old.me }
        ensures same { IsSameSeat seat.old seat.new }
        ensures ended { seat.new.me ≡ (with_none seat.old.me.0, rest seat.old.me.1) }
    {
        self.table.shared.fetch_add::<Serves>(seat, SERVING, 1);
    }

    // The first record stays, and a seat of its own gets the others.
    pub(crate) fn split(&self, seat: &mut LockSeat<T>) -> LockSeat<T>
        requires own { seat.old.table_id ≡ self.now.table.shared.table_id }
        requires two { (seat.old.me.0.stand ≡ Outside) × (1 < length seat.old.me.0.records) }
        ensures same { IsSameSeat seat.old seat.new × (result.table_id ≡ seat.old.table_id) }
        ensures cut { (seat.new.me ≡ (split_left seat.old.me.0, seat.old.me.1)) × (result.me ≡ (split_right seat.old.me.0, [])) }
    {
        self.table.shared.split_seat::<Deals>(seat)
    }

    // Takes in another seat, with what it has seen and its records.
    pub(crate) fn join(&self, seat: &mut LockSeat<T>, other: LockSeat<T>)
        requires own { (seat.old.table_id ≡ self.now.table.shared.table_id) × (other.table_id ≡ self.now.table.shared.table_id) }
        requires outside { (seat.old.me.0.stand ≡ Outside) × (other.me.0.stand ≡ Outside) × (other.me.1 ≡ []) × (0 < length seat.old.me.0.records) }
        ensures same { IsSameSeat seat.old seat.new }
        ensures joined { seat.new.me ≡ (joined seat.old.me.0 other.me.0, seat.old.me.1) }
    {
        self.table.shared.join_seat::<Gathers>(seat, other);
    }
}
