ghost use Rattle.std.specs.Prelude.{◌≡◌, List, length};

use std::alloc::AllocError;
use std::marker::Model;

/// A `Vec` that contracts see as the list of its elements, so that two of them with the same elements
/// are equal there. Capacity and allocator do not count.
#[derive(Debug, Drop)]
pub struct Sequence<T> {
    elements: Vec<T>,
}

impl<T> Model for Sequence<T> {
    ghost Value = { List T };

    ghost view = { λ s. s.elements.items };
}

impl<T> Sequence<T> {
    /// The list of these elements. Takes no memory.
    pub fn of(elements: Vec<T>) -> Sequence<T>
        ensures { result ≡ elements.items }
    {
        Sequence { elements }
    }

    /// Gives the elements back. Takes no memory.
    pub fn into_vec(self) -> Vec<T>
        ensures { result.items ≡ self }
    {
        let Sequence { elements } = self;
        elements
    }

    /// The elements, lent to read.
    pub fn as_slice(&self) -> &[T]
        ensures { result.now ≡ self.now }
    {
        self.elements.as_slice()
    }

    /// How many elements there are.
    pub fn len(&self) -> usize
        ensures { result ≡ length self.now }
    {
        self.elements.len()
    }
}

impl<T: Clone> Clone for Sequence<T> {
    // The list of the elements' copies: where each is equal to its element, that list is this one.
    ghost is_clone = { λ list copies. ((element copy : T) → T.is_clone element copy → copy ≡ element) → copies ≡ list };

    fn clone(&self) -> Result<Sequence<T>, AllocError> {
        Ok(Sequence {
            elements: self.elements.clone()?,
        })
    }
}
