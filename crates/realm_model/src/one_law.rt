//! One law for a session whose application's sessions share no instance, and for sessions that share one, in the words of
//! `group_model`'s `OneLaw`.
ghost use Rattle.group_model.specs.OneLaw.{AnsweredAsARealm, CallsAreInRealms, EachKeptSessionHasARealm, KeptSessionsHaveRealms};
ghost use Rattle.group_model.specs.OneLaw.{OwnEventsCanCome, SameRealmEventsSameReplies};

/// What has happened to a session of an application whose sessions share no instance, in a legal history, could all come,
/// one after the other.
pub fn own_events_can_come()
    ensures { OwnEventsCanCome }
{}

/// Those who share an instance are answered as the machine of a group which has what happened to them alone.
pub fn realms_are_answered_as_alone()
    ensures { AnsweredAsARealm }
{}

/// Two realms of one application to which the same has happened, each in a history of its own, were answered the same.
pub fn same_realm_events_get_same_replies()
    ensures { SameRealmEventsSameReplies }
{}

/// Each session that the kernel keeps on an instance is in a realm, from then on in the same one.
pub fn kept_sessions_have_realms()
    ensures { KeptSessionsHaveRealms }
{}

/// Each session that the kernel keeps is in a realm, also while the instance that its open waits for is gone; one whose
/// open hasn't ended is in a realm of the application that the open names.
pub fn each_kept_session_has_a_realm()
    ensures { EachKeptSessionHasARealm }
{}

/// A new call that gets a slot, in a session that is kept then, is the last of what has happened to the realm that the
/// session is in.
pub fn calls_are_in_realms()
    ensures { CallsAreInRealms }
{}
