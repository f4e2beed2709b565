//! A value on the heap, which clauses see as the value itself.
ghost use Rattle.std.specs.Prelude.{◌≡◌, IfOk, IfErr};
ghost use Rattle.std.specs.Borrow.{sem};

use std::alloc::{AllocFailed, Global};
use std::marker::Model;

/// A value on the heap, so that a turn moves a pointer and not the value.
#[derive(Drop)]
pub struct Held<T> {
    place: Box<T>,
}

impl<T> Model for Held<T> {
    ghost Value = { T };

    ghost view = { λ h. h.place.value };
}

impl<T> Held<T> {
    ghost use Rattle.core_lock.specs.Lending.{LendsHeld};

    /// The value with memory of its own, or at `Err` the value, where there is none.
    pub(crate) fn new(alloc: Global, value: T) -> Result<Held<T>, T>
        ensures ok { IfOk result (λ held. held ≡ value) }
        ensures err { IfErr result (λ back. back ≡ value) }
    {
        match Box::new(alloc, value) {
            Ok(place) => Ok(Held { place }),
            Err(AllocFailed { value }) => Err(value),
        }
    }

    pub(crate) fn into_inner(self) -> T
        ensures { result ≡ self }
    {
        let Held { place } = self;
        Box::into_inner(place)
    }

    pub(crate) fn value(&self) -> &T
        ensures { result.now ≡ self.now }
    {
        &self.place
    }

    pub(crate) fn value_mut(&mut self) -> &mut T
        ensures* writes_back { sem 𝓛 (LendsHeld T.row self.entry result) }
        ensures value { result.now ≡ self.old }
    {
        &mut self.place
    }
}
