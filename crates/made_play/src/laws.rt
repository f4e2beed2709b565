//! Laws of the definitions, each the contract of a function that does nothing.

ghost use Rattle.made_play.specs.Examples.{Examples};
ghost use Rattle.made_play.specs.Laws.{MadePlaysEnd, MadeTracesAreSound};

/// Each made trace is within the limits of a trace, and a core can be booted for it.
pub fn made_traces_are_sound()
    ensures { MadeTracesAreSound }
{}

/// The play of a made trace of at most 65,536 calls refuses no entry, and so it takes each item of the trace.
pub fn made_plays_end()
    ensures { MadePlaysEnd }
{}

/// Summaries of small plays, computed.
pub fn worked_examples()
    ensures { Examples }
{}
