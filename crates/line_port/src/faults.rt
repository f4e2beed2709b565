/// How many calls of a port have failed. A count that has come to 2^64 - 1 stays there.
#[derive(Clone, Copy, Debug, PartialEq, Eq)]
pub struct Faults {
    /// Calls of `hear`.
    pub reads: u64,
    /// Calls of `say`.
    pub writes: u64,
}
