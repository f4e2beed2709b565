/// Why no call was resumed, the first of these that fits. The slots are as they were.
#[derive(Clone, Copy, Debug, PartialEq, Eq)]
pub enum BadResume {
    /// There is no slot of this number.
    NoSlot,
    /// The slot is free, or its call runs.
    NotSuspended,
    /// The suspended call is that of another client, of this number.
    OtherClient(u32),
}
