/// A call that waits, and the number of the instance for which it does.
#[derive(Clone, Copy)]
pub struct Waiter {
    pub call: u32,
    pub instance: u64,
}
