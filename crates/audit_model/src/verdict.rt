/// What the events of a journal are.
#[derive(Clone, Copy)]
pub enum Verdict {
    /// A legal history in which each entry's reads agree begins with them.
    Legal,
    /// The event of this number, from 0, is the first with which no such history begins.
    Illegal(u64),
}
