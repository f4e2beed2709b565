//! Isolation of one session, in `own_model`'s words: what it is answered depends on its own events alone, since it is
//! answered as its realm is.
ghost use Rattle.own_model.specs.Isolation.{AnsweredAsAlone, CallsAreInLogs, KeptSessionsAreKnown, PendingOpensAreKnown};
ghost use Rattle.own_model.specs.Isolation.{SameBeginningsSameReplies, SameEventsSameReplies};
ghost use Rattle.own_model.specs.Shown.{SameEventsShowTheSame};

/// After each legal history a session of an application whose sessions share no instance was answered as its machine
/// answers to its events.
pub fn sessions_are_answered_as_alone()
    ensures { AnsweredAsAlone }
{}

/// Two sessions of one application whose sessions share no instance, to which the same has happened, were answered the
/// same, whatever else happened, in whichever two boots with one key.
pub fn same_events_get_same_replies()
    ensures { SameEventsSameReplies }
{}

/// As far as the first events of two such sessions are the same, so are the replies to these: not only in the end.
pub fn same_beginnings_get_same_replies()
    ensures { SameBeginningsSameReplies }
{}

/// After each legal history the application of each session that is kept is known, where its sessions share no instance,
/// so that the law is about that session; and it stays known, whatever comes then.
pub fn kept_sessions_are_known()
    ensures { KeptSessionsAreKnown }
{}

/// The application of each session whose open hasn't ended yet is known, where its sessions share no instance: it is the
/// one that the open names.
pub fn pending_opens_are_known()
    ensures { PendingOpensAreKnown }
{}

/// Each new call of a session whose application's sessions share no instance, if it gets a slot, is the next event of the
/// session's log, its open among them: so no call of the session that has got a slot is left out.
pub fn calls_are_in_logs()
    ensures { CallsAreInLogs }
{}

/// Where the same has happened to two such sessions of one application up to an exit of each, in whichever two histories
/// and boots with one key, and their calls have the same places there, the normal world is shown the same at both: what
/// is written, and the registers, if the processors came in with the same a4 to a7.
pub fn same_events_show_the_same()
    ensures { SameEventsShowTheSame }
{}
