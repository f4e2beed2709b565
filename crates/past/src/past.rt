ghost use Rattle.std.specs.Prelude.{◌≡◌, List, [], ◌∷◌, ◌++◌};
ghost use Rattle.std.specs.Borrow.{ftrue};

use std::marker::{Model, PhantomData};

/// What has come so far, in its order. Contracts see the list of it, `items`; none of it is kept.
#[derive(Drop)]
pub struct Past<E> {
    of: PhantomData<E>,
    pub ghost items: { List E },
}

impl<E> Model for Past<E> {
    ghost also_owns = { λ _. ftrue };
}

// It owns nothing.
unsafe impl<E: Send> Send for Past<E> {}

impl<E> Past<E> {
    /// Nothing has come.
    pub fn new() -> Past<E>
        ensures { result.items ≡ [] }
    {
        Past { of: PhantomData }
    }

    /// This past, with the entry behind it.
    pub fn with(&self, entry: &E) -> Past<E>
        ensures { result.items ≡ self.now.items ++ entry.now ∷ [] }
    {
        Past { of: PhantomData }
    }
}
