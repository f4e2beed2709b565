use own_model::OwnReply;

/// What a group is answered. No thread, address, cookie or session number of the kernel stands in it. This project's
/// own.
#[derive(Drop)]
pub struct GroupReply {
    /// As a session is answered, with the group's numbers of calls; never `Limited`.
    pub reply: OwnReply,
    /// The group's number of the session that an open has opened, where the reply is that it succeeded.
    pub opened: Option<u32>,
}
