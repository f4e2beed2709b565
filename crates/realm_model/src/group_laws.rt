//! Isolation of groups, in `group_model`'s words: what the sessions of a single-instance application are answered depends on
//! what happens to them alone, since they are answered as their realm is.
ghost use Rattle.group_model.specs.Isolation.{AnsweredAsAGroup, CallsAreInTheLog, KeptSessionsAreOfTheGroup, PendingOpensAreOfTheGroup};
ghost use Rattle.group_model.specs.Isolation.{SameGroupBeginningsSameReplies, SameGroupEventsSameReplies};

/// After each legal history the sessions of a single-instance application were answered as the machine of their group
/// answers to the group's events.
pub fn groups_are_answered_as_alone()
    ensures { AnsweredAsAGroup }
{}

/// After each history each session that the kernel keeps on an instance of the application has its number in the group;
/// and it keeps that number, whatever comes then.
pub fn kept_sessions_are_of_the_group()
    ensures { KeptSessionsAreOfTheGroup }
{}

/// After each history each session of the application whose open hasn't ended has its number in the group, also while it
/// waits for an instance that is gone by now.
pub fn pending_opens_are_of_the_group()
    ensures { PendingOpensAreOfTheGroup }
{}

/// Each new call in one of the group's sessions that gets a slot is the next event of the group's log, the sessions'
/// opens among them.
pub fn calls_are_in_the_log()
    ensures { CallsAreInTheLog }
{}

/// Two groups of one application to which the same has happened were answered the same, whatever else happened, in
/// whichever two boots that have one key.
pub fn same_group_events_get_same_replies()
    ensures { SameGroupEventsSameReplies }
{}

/// As far as the first events of two such groups are the same, so are the replies to these: not only in the end.
pub fn same_group_beginnings_get_same_replies()
    ensures { SameGroupBeginningsSameReplies }
{}
