use crate::held::Held;
use crate::view::View;
use atomic_table::Seat;
use base::Logged;
use std::snapshot::Snapshot;

/// A seat at a lock's table.
pub(crate) type LockSeat<T> = Seat<
    Option<Held<T>>,
    View<<T as Logged>::Entry, <T as Logged>::Basis>,
>;

/// A right to take turns, under a number of its own. It carries what was seen and what was made.
pub struct Pass<T: Logged> {
    pub(crate) number: u32,
    pub(crate) seat: LockSeat<T>,
}

impl<T: Logged> Pass<T> {
    ghost use Rattle.std.specs.Prelude.{◌≡◌};
    ghost use Rattle.core_lock.specs.Passes.{number};

    /// The pass's number, below the lock's count.
    pub fn number(&self) -> u32
        ensures { result ≡ number self.now }
    {
        self.number
    }

    pub(crate) fn into_seat(self) -> LockSeat<T>
        ensures { result ≡ self.seat }
    {
        let Pass { number: _, seat } = self;
        seat
    }
}

impl<T: Logged> Drop for Pass<T> {
    fn drop(self) {
        let Self { number: _, seat: _ } = self;
    }
}

/// The value, while it is a pass's turn. It has to be given back.
pub struct Turn<T: Logged> {
    pub(crate) value: Held<T>,
    // The pass as it was when it took the turn.
    pub(crate) of: Snapshot<Pass<T>>,
}

impl<T: Logged> Turn<T> {
    ghost use Rattle.std.specs.Prelude.{◌≡◌};
    ghost use Rattle.std.specs.Borrow.{sem};
    ghost use Rattle.core_lock.specs.Lending.{LendsValue};

    /// The value, lent to read.
    pub fn value(&self) -> &T
        ensures { result.now ≡ self.now.value }
    {
        self.value.value()
    }

    /// The value, lent to change: what is put there is the value afterwards.
    pub fn value_mut(&mut self) -> &mut T
        ensures* writes_back { sem 𝓛 (LendsValue T.row T.Entry.row T.Basis.row self.entry result) }
        ensures value { result.now ≡ self.old.value }
    {
        self.value.value_mut()
    }
}
