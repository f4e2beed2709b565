//! The rule of the lock's table, and what each kind of step tells.
use crate::held::Held;
use crate::view::View;
use atomic_table::{Join, Play, Split, TableRule};
use base::Logged;
use std::marker::PhantomData;
use std::snapshot::Snapshot;

/// What a lock is told once: how many numbers it has, and the value that it begins with.
#[derive(Drop)]
pub struct Terms<T> {
    pub count: u32,
    pub first: Snapshot<T>,
}

/// The rule of a lock's table.
pub struct LockRule<T> {
    value: PhantomData<T>,
}

impl<T: Logged> TableRule<Option<Held<T>>, View<T::Entry, T::Basis>, Terms<T>> for LockRule<T> {
    ghost use Rattle.core_lock.specs.Rule.{Kept, opening_view};

    ghost holds = { λ k. Kept T.entries T.maker T.basis k.count (T.basis k.first.value) };

    ghost first = { λ k. opening_view k.count (T.basis k.first.value) };
}

/// A view is cut in two: its own record stays, and the others go.
pub(crate) struct Deals;

impl<E, G> Split<View<E, G>> for Deals {
    ghost use Rattle.core_lock.specs.Steps.{split_left, split_right};

    ghost left = { split_left };

    ghost right = { split_right };
}

/// A view takes in another.
pub(crate) struct Gathers;

impl<E, G> Join<View<E, G>> for Gathers {
    ghost use Rattle.core_lock.specs.Rule.{spent};
    ghost use Rattle.core_lock.specs.Steps.{joined};

    ghost both = { joined };

    ghost spent = { spent };
}

/// A ticket is drawn.
pub(crate) struct Draws;

impl<T, E, G> Play<Option<T>, View<E, G>> for Draws {
    ghost use Rattle.core_lock.specs.Steps.{drew};

    ghost then = { drew };
}

/// The ticket that is served is looked at, and the value is taken where it is one's own.
pub(crate) struct Looks<T> {
    value: PhantomData<T>,
}

impl<T: Logged> Play<Option<Held<T>>, View<T::Entry, T::Basis>> for Looks<T> {
    ghost use Rattle.core_lock.specs.Steps.{looked};

    ghost then = { looked T.entries T.maker T.basis };
}

/// The entries of the value that was put back are counted.
pub(crate) struct Counts<T> {
    value: PhantomData<T>,
}

impl<T: Logged> Play<Option<Held<T>>, View<T::Entry, T::Basis>> for Counts<T> {
    ghost use Rattle.core_lock.specs.Steps.{counted};

    ghost then = { counted T.entries T.maker };
}

/// The next ticket is served.
pub(crate) struct Serves;

impl<T, E, G> Play<Option<T>, View<E, G>> for Serves {
    ghost use Rattle.core_lock.specs.Steps.{served};

    ghost then = { served };
}
