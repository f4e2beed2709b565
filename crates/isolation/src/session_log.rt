use kernel_state::Application;
use own_model::{OwnEvent, OwnReply};

/// An event of a session, with its reply, if it has one.
pub type Logged = journal_notes::Logged<OwnEvent, OwnReply>;

/// What happened to a session, and what it was answered.
#[derive(Drop)]
pub struct OwnLog {
    /// Its application, once its open has come in.
    pub app: Option<Application>,
    /// Its events, each beside its reply.
    pub entries: Vec<Logged>,
}
