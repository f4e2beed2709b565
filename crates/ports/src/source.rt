ghost use Rattle.std.specs.Prelude.{◌≡◌, ◌≢◌, ℕ, ◌<◌, ◌≤◌, ◌⊎◌, List, [], Option, IfSome, length, take};
ghost use Rattle.ports.specs.Port.{IfBytes, Moves, Rose};

/// What a call of `take` came to.
#[derive(Clone, Copy, Debug, PartialEq, Eq)]
pub enum Taken {
    /// So many bytes stand at the front of the buffer.
    Bytes(usize),
    /// Nothing is left.
    End,
    /// The source failed, and counted a fault.
    Failed,
}

/// Where bytes come from.
pub trait Source {
    /// What is left, where the source tells it.
    ghost left: { Self → Option (List ℕ) };

    /// How many faults it has counted, each in a call that failed. A count that has come to 2^64 - 1 stays there.
    ghost faults: { Self → ℕ };

    /// Moves bytes from the front of what is left to the front of the buffer. What the buffer holds behind
    /// them is left open, as it is where no bytes were moved.
    fn take(&mut self, buf: &mut [u8]) -> Taken
        ensures bytes { IfBytes result (λ n. (0 < n) × (n ≤ length buf.old)) }
        ensures moved { IfBytes result (λ n. Moves (left self.old) (left self.new) (take n buf.new)) }
        ensures end { result ≡ Taken.End → (left self.new ≡ left self.old)
            × IfSome (left self.old) (λ rest. (rest ≡ []) ⊎ (length buf.old ≡ 0)) }
        ensures failed { result ≡ Taken.Failed → (left self.new ≡ left self.old)
            × Rose (faults self.old) (faults self.new) }
        ensures count { faults self.old ≤ faults self.new }
        ensures stays { result ≢ Taken.Failed → faults self.new ≡ faults self.old };
}
