use uuid::Uuid;

/// Why no core was booted.
#[derive(Clone, Copy, Debug, PartialEq, Eq)]
pub enum BootFault {
    /// The UUID of the first application whose UUID an earlier one or a built-in one has.
    Repeated(Uuid),
    Memory,
}
