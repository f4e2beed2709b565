/// What a driver answers to each number of notifications. This project's own.
#[derive(Clone, Copy)]
pub enum DriverRelation {
    /// The number itself.
    Echo,
    /// This result, to whatever number.
    Fixed(u32),
}
