//! What holds of the journals of cores, of the histories of plays, and of what was read.
ghost use Rattle.audit.specs.Laws.{CoreJournalsAreSound, PlaysAreFaultless, ReadBootsCanBeChecked};

/// The journal of each core can be written, and a legal history can be that has copied at most 2^28 bytes.
pub fn core_journals_are_sound()
    ensures { CoreJournalsAreSound }
{}

/// The history of each play of a trace is legal and steady, so that the verdict on it is [`crate::Verdict::Legal`].
pub fn plays_are_faultless()
    ensures { PlaysAreFaultless }
{}

/// A journal that [`journal_bytes::read_journal`] gives beside the UUIDs of applications that are built in can be checked beside
/// these: its boot so, and its events since they have copied at most 2^28 bytes.
pub fn read_boots_can_be_checked()
    ensures { ReadBootsCanBeChecked }
{}
