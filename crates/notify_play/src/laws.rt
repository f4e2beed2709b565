//! What holds of the definitions themselves.
ghost use Rattle.notify_play.specs.Examples.{Examples};
ghost use Rattle.notify_play.specs.Laws.{LimitIsTheKernels, OtherExitsStay, ResumesAskNothing, StepsArePlayed, StepsCallDesk};
ghost use Rattle.notify_play.specs.Laws.{StepsHoldInOrder};

/// Whatever was signalled, the history of each play is legal and keeps the kernel's own answers, from which follows
/// what holds of each legal history, isolation among it, and that a resume which finds no call changes nothing else. A bottom
/// half that comes next calls exactly the drivers that were signalled, while the desk was enabled, since the last bottom half
/// or stop, each with the number of these signals, at most 2^32 - 1; that the desk's signals are the trace's,
/// [`steps_call_desk`] says.
pub fn steps_are_played()
    ensures { StepsArePlayed }
{}

/// The play of steps holds them in their order, all or those before a refused entry: its history is the entries and exits that
/// they let happen, with each signal at its place, and its returns are the history's exits, each once and in their order, with the
/// kernel's answer or with what the desk makes of it.
pub fn steps_hold_in_order()
    ensures { StepsHoldInOrder }
{}

/// From each play on, the desk gets exactly the signals of the steps that are taken, in their order, and what the exits
/// of the history ask of it, in theirs. All steps are taken, unless an entry is refused: none behind that is.
pub fn steps_call_desk()
    ensures { StepsCallDesk }
{}

/// The exit of a return from RPC asks nothing of the desk, so that one which finds no call changes nothing of a play but its
/// history, its lines and what its processor was told last.
pub fn resumes_ask_nothing()
    ensures { ResumesAskNothing }
{}

/// An answer ETHREAD_LIMIT that is told is the kernel's, and so each that the kernel gives to a new call is told: the desk makes
/// none, and hides none.
pub fn limit_is_the_kernels()
    ensures { LimitIsTheKernels }
{}

/// An exit that asks nothing of the desk comes to the kernel, the RAM and the lines to which it comes without signals.
pub fn other_exits_stay()
    ensures { OtherExitsStay }
{}

/// Examples of the definitions, and plays of written scripts with what they print.
pub fn worked_examples()
    ensures { Examples }
{}
