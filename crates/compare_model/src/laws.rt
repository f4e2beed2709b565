//! Laws of the definitions, each the contract of a function that does nothing.

ghost use Rattle.compare_model.specs.GroupExamples.{GroupExamples};
ghost use Rattle.compare_model.specs.Laws.{JournalsAreAnsweredAlone, OneComparison, SameGivesSameReplies};
ghost use Rattle.compare_model.specs.SessionExamples.{SessionExamples};

/// Two journals have one answer at most.
pub fn one_comparison()
    ensures { OneComparison }
{}

/// Where two journals show the same of a session or of a group, it was answered the same in both.
pub fn same_journals_give_same_replies()
    ensures { SameGivesSameReplies }
{}

/// In each legal journal a session or a group is answered as the machine that has its events alone answers.
pub fn journals_are_answered_alone()
    ensures { JournalsAreAnsweredAlone }
{}

/// What two journals show of a session, worked out by hand.
pub fn session_examples()
    ensures { SessionExamples }
{}

/// What two journals show of a group, worked out by hand.
pub fn group_examples()
    ensures { GroupExamples }
{}
