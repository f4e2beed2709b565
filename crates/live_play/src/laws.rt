//! What holds of the definitions themselves.
ghost use Rattle.live_play.specs.Examples.{Examples};
ghost use Rattle.live_play.specs.Changes.{ChangesTellAll};
ghost use Rattle.live_play.specs.Copies.{CopiesAreRam};
ghost use Rattle.live_play.specs.Laws.{GoodConversationsAreTraces, RefusalsChangeNothing, TurnsAreTold, UnaskedConversationsAreRuns};
ghost use Rattle.live_play.specs.PanickingLaws.{EndedCallsStay, PanicsEndCalls};
ghost use Rattle.live_play.specs.ShowingExamples.{ShowingExamples};
ghost use Rattle.live_play.specs.ShowingLaws.{ExitsAreWatched, HistoryOffForgetsAlone, MoreBytesChangeNothing, PlainConversationsAreAsBefore, QuestionsChangeNothing, RefusedLinesChangeNothing};

/// A line that breaks a rule, and one whose entry would have all entries read too much, are answered so, and change nothing.
pub fn refusals_change_nothing()
    ensures { RefusalsChangeNothing }
{}

/// Behind each turn of each conversation, all returns that were said are the kernel's in one legal history, with all that is
/// said of the plays of a trace with signals.
pub fn turns_are_told()
    ensures { TurnsAreTold }
{}

/// A conversation without bad lines and refusals is a trace with signals, and says the lines that the word `notify` writes for
/// it.
pub fn good_conversations_are_traces()
    ensures { GoodConversationsAreTraces }
{}

/// Where no answer of such a conversation is one that the desk of signals makes, its lines without the signals among them are a
/// trace, and it says the lines that the word `run` writes for that.
pub fn unasked_conversations_are_runs()
    ensures { UnaskedConversationsAreRuns }
{}

/// Examples of the definitions: conversations of a few lines.
pub fn worked_examples()
    ensures { Examples }
{}

/// What is said of an exit that is watched tells all that it changes: laid over what RAM was it gives what RAM is.
pub fn changes_tell_all()
    ensures { ChangesTellAll }
{}

/// A line that asks changes nothing that counts, and could as well have been left out.
pub fn questions_change_nothing()
    ensures { QuestionsChangeNothing }
{}

/// A line that breaks a rule, of a question or any other, one whose entry is refused, and what is no line are answered so whether
/// exits are watched or not, and change nothing: not even that.
pub fn refused_lines_change_nothing()
    ensures { RefusedLinesChangeNothing }
{}

/// A line `history off` changes how much entries may read, and whether events are told, and nothing of the lines that count:
/// those of a trace with signals are answered as they are without it, up to that limit.
pub fn history_off_forgets_alone()
    ensures { HistoryOffForgetsAlone }
{}

/// While no entry is refused, how much all entries may read changes nothing. So with history off the same lines of a trace
/// with signals count, and the same is shown to each of them, exits watched or not, and to each question but one for events.
pub fn more_bytes_change_nothing()
    ensures { MoreBytesChangeNothing }
{}

/// A conversation in which no line asks or turns history off, and no exit is watched, is what it is without such lines.
pub fn plain_conversations_are_as_before()
    ensures { PlainConversationsAreAsBefore }
{}

/// What stands behind the line of an exit that is watched.
pub fn exits_are_watched()
    ensures { ExitsAreWatched }
{}

/// Who keeps a copy of each processor's RAM by the bytes of the header, its own lines `write` and the lines `wrote` has the RAM
/// that the core sees, behind each answer of a conversation in which each exit is watched.
pub fn copies_are_ram()
    ensures { CopiesAreRam }
{}

/// Behind the exit at which a panic is told that very call has ended, with the result of a panic, and of a call that has ended
/// none is told.
pub fn panics_end_calls()
    ensures { PanicsEndCalls }
{}

/// A call that has ended has ended still behind each event, until it leaves its slot: so each panic is told once.
pub fn ended_calls_stay()
    ensures { EndedCallsStay }
{}

/// Examples of conversations in which lines ask.
pub fn questions_shown()
    ensures { ShowingExamples }
{}
