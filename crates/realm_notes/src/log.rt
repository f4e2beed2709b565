use group_model::GroupReply;
use realm_model::RealmEvent;

/// An event of a realm, with its reply, if it has one.
pub type Logged = journal_notes::Logged<RealmEvent, GroupReply>;

/// An event with its reply, if it has one, each of both on the heap.
pub type BoxedEntry = journal_notes::BoxedEntry<RealmEvent, GroupReply>;
