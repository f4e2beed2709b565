//! What becomes of a trace and its player once the trace is played.

use std::mem::forget;

/// What becomes of a trace and of the player with its core, once the lines of the play are put. No status and no output depends on it.
#[derive(Clone, Copy)]
pub enum AtEnd {
    /// They are freed: for a caller that goes on.
    Free,
    /// Their memory stays taken: for a process that ends then, which gives all of it back at once.
    LeaveToProcess,
}

impl AtEnd {
    /// Ends with a value that nothing needs any more.
    pub fn end_with<T: Drop>(self, value: T) {
        match self {
            AtEnd::Free => drop(value),
            AtEnd::LeaveToProcess => forget(value),
        }
    }
}
