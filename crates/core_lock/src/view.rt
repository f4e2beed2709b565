//! What a seat at the lock's table knows. No value of these types is made: they exist in proofs alone.
use std::collections::LinkedList;

/// The entries that were made under one number.
pub struct Record<E> {
    pub number: u32,
    pub made: LinkedList<E>,
    /// Of a record that was taken over: what its pass had seen by then. Empty for the others.
    pub seen: LinkedList<E>,
}

/// Where a seat stands in the queue.
pub enum Stand {
    Outside,
    /// It waits, with this ticket.
    Waits(u64),
    /// It has the turn, by this ticket.
    Turn(u64),
}

/// A pass as the rule of the table sees it.
pub struct View<E, G> {
    /// How many numbers the lock has.
    pub count: u32,
    /// What no turn changes. None for a view that was spent.
    pub basis: Option<G>,
    pub seen: LinkedList<E>,
    /// The first is the pass's own.
    pub records: LinkedList<Record<E>>,
    pub stand: Stand,
}
