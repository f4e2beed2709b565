//! What holds of the acts of traces, and of works that have ended on one core.
ghost use Rattle.threads_play.specs.Laws.{EndsArePlayed, EndsGather, EndsMerge, EndsStay, SoundTracesAreInTurn};

/// Each processor of a trace within its limits comes in and goes out by turns, with registers, steps and addresses within their
/// limits, and is outside in the end.
pub fn sound_traces_are_in_turn()
    ensures { SoundTracesAreInTurn }
{}

/// How a processor's work has ended, by what its pass has seen, holds of each history that begins so and has no other event of the
/// processor.
pub fn ends_stay()
    ensures { EndsStay }
{}

/// Where there is such a work of each processor of a core, in the order of their numbers, all have ended over that history.
pub fn ends_gather()
    ensures { EndsGather }
{}

/// Where the works of all processors of a trace have ended over one legal history, the blocks of the trace in that history's order
/// are what they have printed, one behind the other.
pub fn ends_merge()
    ensures { EndsMerge }
{}

/// Where the works of all processors of a trace have ended on a core that is had back, they are those of the play in the order of its
/// history.
pub fn ends_are_played()
    ensures { EndsArePlayed }
{
    ends_gather();
    ends_merge();
}
