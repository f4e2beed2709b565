//! One reader for sessions and groups.
ghost use Rattle.realm_model.specs.Forgetting.{GroupsAreRealms, SessionEventsAreRealms, SessionsAreRealms};
ghost use Rattle.realm_model.specs.Examples.{Examples};

/// What is noted of a session by a history is what is noted of its realm, with the numbers of sessions forgotten.
pub fn sessions_are_realms()
    ensures { SessionsAreRealms }
{}

/// So the events of a session, told as those of a group, are its realm's.
pub fn session_events_are_realms()
    ensures { SessionEventsAreRealms }
{}

/// What is noted of a group by a history is what is noted of its realm.
pub fn groups_are_realms()
    ensures { GroupsAreRealms }
{}

/// On worked histories of sessions, the machine of a group answers to a session's events what the session was answered.
pub fn worked_examples()
    ensures { Examples }
{}
