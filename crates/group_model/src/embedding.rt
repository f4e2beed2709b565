//! The machine of a session is that of a group which has this one session.
ghost use Rattle.group_model.specs.Embedding.{RepliesAsAGroup, RepliesAsASession, StepsAsAGroup};

/// At each event that can come to the session, the machine of the group does with it what the session's does.
pub fn sessions_step_as_groups()
    ensures { StepsAsAGroup }
{}

/// So it replies to a session's events what the session's machine replies.
pub fn sessions_reply_as_groups()
    ensures { RepliesAsAGroup }
{}

/// And where it takes them, so does the session's machine.
pub fn groups_reply_as_sessions()
    ensures { RepliesAsASession }
{}
