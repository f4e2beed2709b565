use solo::KeptInstance;

/// The instance that the sessions share.
#[derive(Drop)]
pub struct Shared {
    /// Calls that wait for an instance of another number wait for one that is gone.
    pub number: u64,
    /// Its holder is the number of a call.
    pub kept: KeptInstance,
}
