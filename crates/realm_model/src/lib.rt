//! A session or a group as a realm: those who share an instance, one reader of what happens to them, and one tie.
//!
//! The crate is one of definitions and laws. `specs/` reads in the order of its modules: `Realm` says who the members are, and
//! all that differs in what is read of one session and of all sessions of an application; `Reading` reads a realm's events and replies off
//! the kernels that a history goes through; `Forgetting` says what a session's and a group's readings are of it; `Tied` says
//! when a kernel and the machine of a realm, which is that of a group, do the same next, by names of instances alone; `Laws`
//! says what holds of the two at each event, and `Histories` what is answered in a whole history. `Examples` is computed.
//!
//! Nothing here touches RAM, a port or a thread.
//!
//! # What is proved
//!
//! - What is noted of a session by any history is what is noted of its realm with the numbers of sessions forgotten
//!   (`sessions_are_realms`), so that its events, told as those of a group, are the realm's (`session_events_are_realms`); and
//!   what is noted of a group is what is noted of its realm (`groups_are_realms`).
//! - On worked histories of sessions the machine of a group answers to a session's events what the session was answered
//!   (`worked_examples`).
//! - As a kernel boots it is tied to the machine of each realm (`boots_are_tied`); tied they stay by a fixed answer
//!   (`fixed_answers_keep_realms`), by an exit, a resume or a new call that isn't the realm's
//!   (`exits_of_others_keep_realms`, `resumes_of_others_keep_realms`, `calls_of_others_keep_realms`), by its new calls
//!   (`own_calls_keep_realms`), by an interrupt of a call of the realm (`interrupts_keep_realms`) and by its other exits
//!   and resumes (`own_exits_keep_realms`, `own_resumes_keep_realms`).
//! - In each legal history the machine of a realm, which has the realm's events alone, answers as the realm was answered
//!   (`realms_are_answered`), within bounds of calls and steps (`realms_stay_within`); so two realms of one application to
//!   which the same has happened were answered the same (`same_events_of_realms_get_same_replies`), in the end and at each
//!   beginning (`same_beginnings_of_realms_get_same_replies`). Each session that the kernel keeps on its instance is a
//!   member of a realm, and keeps its number there (`kept_sessions_are_members`).
//! - What `own_model` says of one session follows, in its own words: it is answered as its machine answers
//!   (`sessions_are_answered_as_alone`), two to which the same has happened are answered and shown the same
//!   (`same_events_get_same_replies`, `same_beginnings_get_same_replies`, `same_events_show_the_same`), which sessions this is
//!   about (`kept_sessions_are_known`, `pending_opens_are_known`), and that no call of theirs is left out (`calls_are_in_logs`).
//! - And so does what `group_model` says of a group (`groups_are_answered_as_alone`, `same_group_events_get_same_replies`,
//!   `same_group_beginnings_get_same_replies`, `kept_sessions_are_of_the_group`, `pending_opens_are_of_the_group`,
//!   `calls_are_in_the_log`), and of both at once in `OneLaw` (`own_events_can_come`, `realms_are_answered_as_alone`,
//!   `same_realm_events_get_same_replies`, `kept_sessions_have_realms`, `each_kept_session_has_a_realm`,
//!   `calls_are_in_realms`).
#![tactic(auto)]

mod group_laws;
mod histories;
mod one_law;
mod realm_event;
mod realms;
mod session_laws;
mod ties;

pub use group_laws::{
    calls_are_in_the_log, groups_are_answered_as_alone, kept_sessions_are_of_the_group,
    pending_opens_are_of_the_group, same_group_beginnings_get_same_replies,
    same_group_events_get_same_replies,
};
pub use histories::{
    kept_sessions_are_members, realms_are_answered, realms_stay_within,
    same_beginnings_of_realms_get_same_replies, same_events_of_realms_get_same_replies,
};
pub use one_law::{
    calls_are_in_realms, each_kept_session_has_a_realm, kept_sessions_have_realms,
    own_events_can_come, realms_are_answered_as_alone, same_realm_events_get_same_replies,
};
pub use realm_event::RealmEvent;
pub use realms::{
    groups_are_realms, session_events_are_realms, sessions_are_realms, worked_examples,
};
pub use session_laws::{
    calls_are_in_logs, kept_sessions_are_known, pending_opens_are_known,
    same_beginnings_get_same_replies, same_events_get_same_replies, same_events_show_the_same,
    sessions_are_answered_as_alone,
};
pub use ties::{
    boots_are_tied, calls_of_others_keep_realms, exits_of_others_keep_realms,
    fixed_answers_keep_realms, interrupts_keep_realms, own_calls_keep_realms,
    own_exits_keep_realms, own_resumes_keep_realms, resumes_of_others_keep_realms,
};
