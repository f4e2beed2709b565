ghost use Rattle.std.specs.Prelude.{◌≡◌, ℕ, List, length};

/// A value that stands for a list of entries, each made under a number. It is all that a lock knows of the value behind it.
pub trait Logged {
    /// What the value's list is made of.
    type Entry;

    /// What stays while entries are added: no turn of a lock changes it.
    type Basis;

    // The entries that the value stands for, in order.
    ghost entries: { Self → List Self.Entry };

    // Under which number an entry was made.
    ghost maker: { Self.Entry → ℕ };

    ghost basis: { Self → Self.Basis };

    /// How many entries the value stands for.
    fn length(&self) -> u64
        ensures { result ≡ length (entries self.now) };
}
