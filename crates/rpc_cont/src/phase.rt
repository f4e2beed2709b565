/// How far a call has come. This project's own.
#[derive(Clone, Copy)]
pub enum Phase {
    /// Its application runs.
    Runs,
    /// Its application waits for what it asked of the normal world.
    Asks,
    /// It waits for its instance.
    Waits,
    /// It has a result.
    Ends,
}
