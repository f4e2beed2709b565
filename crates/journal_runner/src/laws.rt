//! What holds of the words together, each the contract of a function that does nothing.
ghost use Rattle.journal_runner.specs.Laws.{JournalsHaveAnswers, RecordedIsAuditedLegal};

/// Of what [`crate::Record`] has written to its end of a trace with a boot, if it has at most 2^24 bytes, [`crate::Audit`] beside the
/// same built-in applications writes `legal N`, N being the number of its events, where no port fails; or there is want of memory.
pub fn recorded_is_audited_legal()
    ensures { RecordedIsAuditedLegal }
{}

/// Beside at most 16 built-in applications, no two with one UUID, each journal that at most 2^24 bytes spell, with nothing behind it,
/// has a verdict, and each two that they spell so have a comparison of each session and group, so that neither word can refuse them.
pub fn journals_have_answers()
    ensures { JournalsHaveAnswers }
{}
