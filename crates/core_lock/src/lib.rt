//! A ticket lock whose passes carry a history.
//!
//! Who takes a turn gets a value that begins with all that its pass has seen, and that holds, under the
//! number of its pass, just the entries that it made. The lock knows nothing of what the value is: the
//! value names its entries, and each entry its maker.
//!
//! It touches the table that the threads share, and no RAM and no port.
//!
//! # What is proved
//!
//! Over every interleaving of threads:
//! - `new` gives the passes in the order of their numbers, which have seen nothing and made nothing, or want of memory
//!   and the value.
//! - `take_turn` gives the value: it has the lock's basis, its entries begin with all that the pass had seen, and under
//!   the pass's number they are just those that it made.
//! - `give_back` needs that the value keeps the basis, that its entries extend those taken, and that each new one has
//!   the pass's number; then the pass has made just these more. What a pass made is just what the entries that it has
//!   seen hold under its number, so at a turn nothing of its number has come between.
//! - `close` needs all passes, each once, with no turn out; the value's entries begin with what each pass has seen,
//!   have under each pass's number just what it made, and no other numbers.
//! - The table's rule, in six clauses, holds between any two steps: a split, a join, a draw, a look, a count and the
//!   end of a turn each keep it, and the value is taken and put by plain exchanges that no other seat sees. A turn
//!   can't be dropped.
//! - Not proved of the lock: that a turn comes, fairness, freedom from deadlock, and that turns go in the order of the
//!   tickets, of which no clause of a public call speaks. Tickets are drawn behind a gate, which lets in whoever comes
//!   while it is open, so turns don't come in the order in which threads came. Of the gate only safety is proved, and
//!   nothing else rests on it.
#![tactic(auto)]

ghost use Rattle.core_lock.specs.Examples.{Examples};

mod gate;
mod held;
mod lock;
mod pass;
mod rule;
mod view;

pub use base::{Logged, NoMemory};
pub use lock::CoreLock;
pub use pass::{Pass, Turn};

/// Small tables, computed.
pub fn worked_examples()
    ensures { Examples }
{}
