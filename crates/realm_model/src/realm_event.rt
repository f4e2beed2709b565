use group_model::GroupEvent;

/// What happens to a realm: an event of its machine, or what is none. This project's own.
#[derive(Drop)]
pub enum RealmEvent {
    /// An event of the realm's machine.
    Comes(GroupEvent),
    /// A new call of the client of one session goes out since no thread was free. Its argument was not read: it may have been
    /// meant for another session of that client.
    TurnedAway,
}
