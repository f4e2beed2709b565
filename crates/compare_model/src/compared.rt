/// What two journals show of a session or of a group of sessions. The causes stand in the order in which they are looked for;
/// journals are numbered 1 and 2.
#[derive(Clone, Copy)]
pub enum Compared {
    /// The event `at` of this journal, from 0, is the first with which no legal history begins in which each entry's reads agree.
    Illegal { journal: u8, at: u64 },
    /// In this journal the number was given to no session, or to one of an application whose sessions share an instance; or the
    /// boot has no application of the UUID, or one whose sessions have an instance each.
    Absent(u8),
    /// In the two journals the applications differ, or their boots have different keys.
    Other,
    /// The events of the session or of the group first differ at this number, from 0, the end of a list counting as different.
    Events(u64),
    /// The same happened to it, and it was given so many replies, the same ones.
    Same(u64),
}
