ghost use Rattle.std.specs.Prelude.{◌≡◌, ◌<◌, ◌≤◌, ℕ, List, [], ◌∷◌, ◌++◌, map, All, Some, IfOk, IfErr, vec_len, vec_capacity};

use crate::gate::Gate;
use crate::held::Held;
use crate::pass::{LockSeat, Pass, Turn};
use crate::rule::{LockRule, Terms};
use crate::view::View;
use atomic_table::{Refused, Table};
use base::{Logged, NoMemory};
use std::alloc::Global;
use std::snapshot::Snapshot;
use std::sync::Wait;

mod steps;

/// A ticket lock round a value. Each turn goes to a pass of the lock, and adds entries under its number.
///
/// Its table has three words, the next ticket, the ticket that is served and the number of entries, and one
/// slot, which has the value. A ticket is drawn behind a gate, so that threads that wait hold none.
#[derive(Drop)]
pub struct CoreLock<T: Logged> {
    table: Table<Option<Held<T>>, View<T::Entry, T::Basis>, Terms<T>, LockRule<T>, Global>,
    gate: Gate,
    ghost laid: { (table.shared.table_id.words ≡ 3) × (table.shared.table_id.slots ≡ 1) × (0 < table.shared.key.count) },
}

impl<T: Logged> CoreLock<T> {
    ghost use mathlib.Core.List.{IsPrefix};
    ghost use Rattle.core_lock.specs.Counts.{made_by, times, numbers_from};
    ghost use Rattle.core_lock.specs.Rule.{numbers_of, opening_view};
    ghost use Rattle.core_lock.specs.declared.view.Stand.TheVariants.{Outside};
    ghost use Rattle.core_lock.specs.Passes.{count_of, basis_of, number, seen, made, IsPassOf, IsIdle, AreIdle, AreUnused, IsTurnOf, Extends, AreAll, IsIn, Tells};

    /// A lock round a value that has no entries, and `count` passes in the order of their numbers, from 0.
    /// There are 1 to 64. Their list has room for as many, so they can be put back without memory. At `Err`
    /// there was no memory, and the value comes back.
    pub fn new(
        alloc: Global,
        value: T,
        count: u32,
    ) -> Result<(CoreLock<T>, Vec<Pass<T>>), (T, NoMemory)>
        requires entries { T.entries value ≡ [] }
        requires count { (0 < count) × (count ≤ 64) }
        ensures lock { IfOk result (λ r. (count_of r.0 ≡ count) × (basis_of T.basis r.0 ≡ T.basis value)) }
        ensures numbers { IfOk result (λ r. map number r.1.items ≡ numbers_from 0 count) }
        ensures passes { IfOk result (λ r. AreIdle T.maker T.basis r.0 r.1.items × AreUnused r.1.items) }
        ensures room { IfOk result (λ r. count ≤ vec_capacity r.1) }
        ensures err { IfErr result (λ e. e.0 ≡ value) }
    {
        let Ok(passes) = Vec::with_capacity(alloc, count as usize) else {
            return Err((value, NoMemory));
        };
        let held = match Held::new(alloc, value) {
            Ok(held) => held,
            Err(value) => return Err((value, NoMemory)),
        };
        let (lock, seat) = match CoreLock::lay(alloc, held, count) {
            Ok(laid) => laid,
            Err((held, error)) => return Err((held.into_inner(), error)),
        };
        let passes = lock.deal(seat, count, passes);
        Ok((lock, passes))
    }

    // Lays the table round the value, with its first seat.
    fn lay(
        alloc: Global,
        value: Held<T>,
        count: u32,
    ) -> Result<(CoreLock<T>, LockSeat<T>), (Held<T>, NoMemory)>
        requires entries { T.entries value ≡ [] }
        requires count { (0 < count) × (count ≤ 64) }
        ensures lock { IfOk result (λ r. (count_of r.0 ≡ count) × (basis_of T.basis r.0 ≡ T.basis value)) }
        ensures seat { IfOk result (λ r. (r.1.table_id ≡ r.0.table.shared.table_id) × (r.1.me ≡ (opening_view count (basis_of T.basis r.0), []))) }
        ensures err { IfErr result (λ e. e.0 ≡ value) }
    {
        let Ok(mut slots) = Vec::with_capacity(alloc, 1) else {
            return Err((value, NoMemory));
        };
        let terms = Terms {
            count,
            first: Snapshot::of(value.value()),
        };
        slots.push_reserved(Some(value));
        match Table::new(alloc, &[0, 0, 0], slots, &terms) {
            Ok((table, seat)) => Ok((
                CoreLock {
                    table,
                    gate: Gate::new(),
                },
                seat,
            )),
            Err(Refused { slots }) => Err((only(slots), NoMemory)),
        }
    }

    // Splits the first seat in a chain, a pass for each number.
    fn deal(&self, seat: LockSeat<T>, count: u32, mut passes: Vec<Pass<T>>) -> Vec<Pass<T>>
        requires own { (seat.table_id ≡ self.now.table.shared.table_id) × (seat.me ≡ (opening_view count (basis_of T.basis self.now), [])) }
        requires count { (count ≡ count_of self.now) × (0 < count) }
        requires room { (passes.items ≡ []) × (vec_len passes ≡ 0) × (count ≤ vec_capacity passes) }
        ensures numbers { map number result.items ≡ numbers_from 0 count }
        ensures passes { AreIdle T.maker T.basis self.now result.items × AreUnused result.items }
        ensures room { count ≤ vec_capacity result }
    {
        let mut rest = seat;
        let mut number = 0;
        while number + 1 < count {
            let others = self.split(&mut rest);
            passes.push_reserved(Pass { number, seat: rest });
            rest = others;
            number += 1;
        }
        passes.push_reserved(Pass { number, seat: rest });
        passes
    }

    /// The value, once all passes are back, in any order. Its entries begin with all that each pass has seen, and
    /// have under each pass's number just those that this pass made.
    pub fn close(self, passes: Vec<Pass<T>>) -> T
        requires own { AreIdle T.maker T.basis self passes.items }
        requires all { AreAll self passes.items }
        ensures basis { T.basis result ≡ basis_of T.basis self }
        ensures passes { All (IsIn T.maker (T.entries result)) passes.items }
        ensures makers { All (λ e. T.maker e < count_of self) (T.entries result) }
    {
        let seat = self.gather(passes);
        let CoreLock { table, gate: _ } = self;
        let mut closed = table.close_with(seat);
        let Some(value) = closed.take(0) else {
            unreachable!()
        };
        closed.free();
        value.into_inner()
    }

    // Joins all passes into one seat.
    fn gather(&self, mut passes: Vec<Pass<T>>) -> LockSeat<T>
        requires own { AreIdle T.maker T.basis self.now passes.items }
        requires all { AreAll self.now passes.items }
        ensures own { result.table_id ≡ self.now.table.shared.table_id }
        ensures outside { result.me.0.stand ≡ Outside }
        ensures numbers { (n : ℕ) → times n (numbers_of result.me.0) ≡ times n (numbers_from 0 (count_of self.now)) }
        ensures tells { All (Tells T.maker result.me.0) passes.items }
    {
        let Some(last) = passes.pop() else {
            unreachable!()
        };
        let mut all = last.into_seat();
        while let Some(pass) = passes.pop() {
            self.join(&mut all, pass.into_seat());
        }
        passes.destroy_empty();
        all
    }

    /// Goes in at the gate, draws a ticket, waits until it is served, and hands out the value. Its entries begin with
    /// all that the pass had seen, and have just those that the pass made under its number.
    ///
    /// Nothing is said of when a turn comes, nor that turns go in the order of the tickets.
    pub fn take_turn(&self, rt: &impl Wait, pass: &mut Pass<T>) -> Turn<T>
        requires own { IsPassOf T.maker T.basis self.now pass.old }
        requires idle { IsIdle pass.old }
        ensures own { IsPassOf T.maker T.basis self.now pass.new }
        ensures same { (number pass.new ≡ number pass.old) × (made pass.new ≡ made pass.old) }
        ensures turn { IsTurnOf pass.new result }
        ensures basis { T.basis result.value ≡ basis_of T.basis self.now }
        ensures seen { IsPrefix (seen pass.old) (T.entries result.value) × (seen pass.new ≡ T.entries result.value) }
        ensures made { made_by T.maker (number pass.new) (T.entries result.value) ≡ made pass.new }
    {
        self.gate.go_in(rt);
        let ticket = self.draw(&mut pass.seat);
        self.wait_for(rt, &mut pass.seat, ticket);
        let value = self.take(&mut pass.seat);
        let of = Snapshot::of(&*pass);
        Turn { value, of }
    }

    /// Gives the value back, with the entries that were added to it, ends the turn and opens the gate. It takes no
    /// memory.
    pub fn give_back(&self, pass: &mut Pass<T>, turn: Turn<T>)
        requires own { IsPassOf T.maker T.basis self.now pass.old }
        requires turn { IsTurnOf pass.old turn }
        requires basis { T.basis turn.value ≡ basis_of T.basis self.now }
        requires entries { Extends T.entries T.maker pass.old turn.value }
        ensures own { IsPassOf T.maker T.basis self.now pass.new }
        ensures same { number pass.new ≡ number pass.old }
        ensures idle { IsIdle pass.new }
        ensures seen { seen pass.new ≡ T.entries turn.value }
        ensures made { made pass.new ≡ made_by T.maker (number pass.old) (T.entries turn.value) }
        ensures more { (more : List T.Entry) → T.entries turn.value ≡ seen pass.old ++ more → made pass.new ≡ made pass.old ++ more }
    {
        let Turn { value, of: _ } = turn;
        let entries = value.value().length();
        self.put(&mut pass.seat, value);
        self.count(&mut pass.seat, entries);
        self.serve(&mut pass.seat);
        self.gate.go_out();
    }
}

// The value that a refused table gives back.
fn only<T>(mut slots: Vec<Option<T>>) -> T
    requires { (x : T) × (slots.items ≡ Some x ∷ []) }
    ensures { slots.items ≡ Some result ∷ [] }
{
    let Some(Some(value)) = slots.pop() else {
        unreachable!()
    };
    slots.destroy_empty();
    value
}
