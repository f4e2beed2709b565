//! What holds of each replay.
ghost use Rattle.journal_replay.specs.Laws.{ReplaysAreFaultless};

/// The events that were done are a legal history, in which the reads of each entry agree.
pub fn replays_are_faultless()
    ensures { ReplaysAreFaultless }
{}
