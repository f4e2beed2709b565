use group_model::{GroupEvent, GroupReply};
use kernel_state::Application;

/// An event of a group, with its reply, if it has one.
pub type Logged = journal_notes::Logged<GroupEvent, GroupReply>;

/// What happened to the sessions of an application, and what they were answered.
#[derive(Drop)]
pub struct GroupLog {
    /// The application, if the boot has it.
    pub app: Option<Application>,
    /// Their events, each beside its reply.
    pub entries: Vec<Logged>,
}
