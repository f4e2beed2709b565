use uuid::Uuid;

/// What two journals are compared on.
#[derive(Clone, Copy)]
pub enum Subject {
    /// The session of this number.
    Session(u32),
    /// All sessions of the application of this UUID, which share one instance.
    Group(Uuid),
}
