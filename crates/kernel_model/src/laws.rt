//! What holds of the definitions themselves.
ghost use Rattle.kernel_model.specs.Examples.{Examples, LegalHistory};
ghost use Rattle.kernel_model.specs.Laws.{AnswersExactly, ExitsFollow, FixedAnswers, LimitExactly, ResumesContinue};
ghost use Rattle.kernel_model.specs.Laws.{ResumesExactly};
ghost use Rattle.kernel_model.specs.Turns.{HistoriesReadRam, StandByTheirEvents};

/// A fixed answer's entry and its exit change nothing but that processor's part, which is outside again.
pub fn fixed_answers_change_one_processor()
    ensures { FixedAnswers }
{}

/// ETHREAD_LIMIT comes exactly where a new call finds no slot free.
pub fn limit_comes_exactly_without_a_slot()
    ensures { LimitExactly }
{}

/// A resume continues the call that is suspended in its slot for its client, and ERESUME comes exactly where there
/// is none.
pub fn resumes_come_exactly()
    ensures { ResumesExactly }
{}

/// In each legal history a processor goes out with ETHREAD_LIMIT exactly where its new call found no slot free, and
/// with ERESUME exactly where its resume found no call.
pub fn answers_come_exactly()
    ensures { AnswersExactly }
{}

/// In each legal history a resume that is let in is one of the call that its slot was left with: what that comes to.
pub fn resumes_continue_what_was_left()
    ensures { ResumesContinue }
{}

/// What a processor goes out with is a function of the events before, in each legal history.
pub fn exits_follow_from_the_past()
    ensures { ExitsFollow }
{}

/// In each legal history a processor is inside exactly where the last of its own events is an entry, and then with that
/// entry's registers and steps.
pub fn processors_stand_by_their_events()
    ensures { StandByTheirEvents }
{}

/// Each read of each entry of a legal history has at least one byte and lies in RAM.
pub fn histories_read_ram()
    ensures { HistoriesReadRam }
{}

/// Examples of the definitions, worked out by hand.
#[tactic(auto, unfolding(base::specs::Zeros::zeros, hex::specs::Hex::encode_with))]
pub fn worked_examples()
    ensures { Examples }
{}

/// There are boots, and histories that are legal from them.
#[tactic(auto, unfolding(ta_isa::specs::InstructionTable::is_instruction, ta_isa::specs::Spelling::are_allowed))]
pub fn some_history_is_legal()
    ensures { LegalHistory }
{}
