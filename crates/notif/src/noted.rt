/// A value that was taken from a desk.
#[derive(Clone, Copy, Debug, PartialEq, Eq)]
pub struct Noted {
    /// The value, or 0 where a driver is to be called.
    pub value: u32,
    /// Whether more values are pending.
    pub more: bool,
}
