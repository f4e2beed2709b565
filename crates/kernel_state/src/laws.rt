//! What the contracts of an entry and an exit say, over all cores.
ghost use Rattle.kernel_state.specs.Laws.{AnswersComeExactly, FixedAnswersPass, JournalsStayLegal, ReturnsContinue, WorkCanLeave, WorkStays, WorkStaysOnward};
ghost use Rattle.kernel_state.specs.Placing.{EntriesStandAtTheirPlaces};

/// The events of each core are a legal history, and an entry and an exit make of its kernel what the kernel's own make.
pub fn journals_stay_legal()
    ensures { JournalsStayLegal }
{}

/// The entries and exits of other processors leave a processor's work its own.
pub fn work_stays()
    ensures { WorkStays }
{}

/// Of a history, and one that goes on with the events of other processors: a processor's work stays its own.
pub fn work_stays_onward()
    ensures { WorkStaysOnward }
{}

/// The work of an entry, with its granted steps done, can leave.
pub fn work_can_leave()
    ensures { WorkCanLeave }
{}

/// The place that a work and its run name is that of their entry among the events, whatever others have done.
pub fn entries_stand_at_their_places()
    ensures { EntriesStandAtTheirPlaces }
{}

/// A fixed answer changes its processor's part alone, and its processor goes out with just that answer.
pub fn fixed_answers_pass()
    ensures { FixedAnswersPass }
{}

/// ETHREAD_LIMIT comes exactly where a new call finds no slot free, and ERESUME exactly where a resume finds no call.
pub fn answers_come_exactly()
    ensures { AnswersComeExactly }
{}

/// A return from RPC continues the call that is suspended in its slot for its client, or is answered ERESUME.
pub fn returns_continue()
    ensures { ReturnsContinue }
{}
