ghost use Rattle.std.specs.Prelude.{◌≡◌, ◌≢◌, ℕ, ◌≤◌, List, Option, take};
ghost use Rattle.ports.specs.Port.{Appends, Rose};

/// What a call of `put` came to.
#[derive(Clone, Copy, Debug, PartialEq, Eq)]
pub enum Put {
    /// The sink holds all the bytes.
    Done,
    /// The sink failed, and counted a fault. It holds a part from their front.
    Failed,
    /// Want of memory. The sink holds what it held.
    Memory,
}

/// Where bytes go.
pub trait Sink {
    /// What it holds, where the sink tells it.
    ghost held: { Self → Option (List ℕ) };

    /// How many faults it has counted, each in a call that failed. A count that has come to 2^64 - 1 stays there.
    ghost faults: { Self → ℕ };

    /// Appends the bytes to what the sink holds.
    fn put(&mut self, bytes: &[u8]) -> Put
        ensures done { result ≡ Put.Done → Appends (held self.old) (held self.new) bytes.now }
        ensures failed { result ≡ Put.Failed → Rose (faults self.old) (faults self.new)
            × ((n : ℕ) × Appends (held self.old) (held self.new) (take n bytes.now)) }
        ensures memory { result ≡ Put.Memory → held self.new ≡ held self.old }
        ensures count { faults self.old ≤ faults self.new }
        ensures stays { result ≢ Put.Failed → faults self.new ≡ faults self.old };
}
