//! A value on the heap, which contracts see as the value itself, so that a pointer is moved in place of a large value.
//!
//! It touches no RAM, no port and no thread.
//!
//! # What is proved
//!
//! What `Boxed::new` gives is the value, `get` lends it and `into_inner` gives it back; `new` answers want of memory.
//! That the value lies on the heap is no clause. It has no tests of its own: the readers of logs use it.
#![tactic(auto)]

ghost use Rattle.std.specs.Prelude.{◌≡◌, IfOk};

use base::NoMemory;
use std::alloc::Global;
use std::marker::Model;

/// A value on the heap. Contracts see the value.
#[derive(Drop)]
pub struct Boxed<T> {
    place: Box<T>,
}

impl<T> Model for Boxed<T> {
    ghost Value = { T };

    ghost view = { λ boxed. boxed.place.value };
}

impl<T: Drop> Boxed<T> {
    /// The value with memory of its own. `NoMemory`, and the value is gone, where there is none.
    pub fn new(alloc: Global, value: T) -> Result<Boxed<T>, NoMemory>
        ensures { IfOk result (λ boxed. boxed ≡ value) }
    {
        let place = Box::new(alloc, value)?;
        Ok(Boxed { place })
    }
}

impl<T> Boxed<T> {
    /// The value, lent to read.
    pub fn get(&self) -> &T
        ensures { result.now ≡ self.now }
    {
        &self.place
    }

    /// The value itself.
    pub fn into_inner(self) -> T
        ensures { result ≡ self }
    {
        let Boxed { place } = self;
        Box::into_inner(place)
    }
}
