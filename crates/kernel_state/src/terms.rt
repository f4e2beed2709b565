/// What becomes of a core's events, and how much its entries may read. No call changes it, and nothing that the core answers
/// depends on it but where it is full.
#[derive(Clone, Copy, Debug, PartialEq, Eq)]
pub struct Terms {
    /// Whether the events are kept as data, or counted alone.
    pub keeps: bool,
    /// The most bytes that all entries together may read, at most 2^63.
    pub most: u64,
}

impl Terms {
    /// The events are kept, and entries may read 2^28 bytes.
    pub const KEPT: Terms = Terms {
        keeps: true,
        most: 1 << 28,
    };
}
