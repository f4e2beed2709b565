//! What is answered to a realm in a whole history.
ghost use Rattle.realm_model.specs.Histories.{AnsweredAsARealm, KeptSessionsHaveRealms, RealmsStayWithin};
ghost use Rattle.realm_model.specs.Histories.{SameRealmBeginningsSameReplies, SameRealmEventsSameReplies};

/// The machine of a realm, which has the realm's events alone, answers as the realm was answered, whatever else happens: one
/// session of an application whose sessions share no instance, and all sessions of one whose sessions share one.
pub fn realms_are_answered()
    ensures { AnsweredAsARealm }
{}

/// It answers within bounds: at each event it has taken no more calls than have come in by the end, and a call that goes
/// out, and runs then, has done no more than a million steps for each event of the history.
pub fn realms_stay_within()
    ensures { RealmsStayWithin }
{}

/// Realms of one application to which the same has happened were answered the same, after any two legal histories of any
/// two boots that have the same key.
pub fn same_events_of_realms_get_same_replies()
    ensures { SameRealmEventsSameReplies }
{}

/// As far as the same has happened first to two such realms, they were answered the same, calls that found no thread too.
pub fn same_beginnings_of_realms_get_same_replies()
    ensures { SameRealmBeginningsSameReplies }
{}

/// Each session that the kernel keeps on its instance after a legal history is a member of such a realm, and keeps its
/// number there.
pub fn kept_sessions_are_members()
    ensures { KeptSessionsHaveRealms }
{}
