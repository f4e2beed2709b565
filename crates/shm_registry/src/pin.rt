/// A registered buffer is in use by the call of a thread slot.
#[derive(Clone, Copy)]
pub struct Pin {
    /// The cookie of the buffer.
    pub cookie: u64,
    /// The number of the slot, below 16.
    pub slot: u8,
}
