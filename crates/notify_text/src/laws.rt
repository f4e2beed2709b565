ghost use Rattle.notify_text.specs.Examples.{Examples};
ghost use Rattle.notify_text.specs.Grammar.{AreTraces, EveryText};

/// Each text spells one trace, or has one first fault, and not both.
pub fn every_text_has_one_meaning()
    ensures { EveryText }
{}

/// A text in which no line begins with `signal` spells with signals what it spells as a trace, with none, and its first
/// fault is that of a trace.
pub fn texts_without_signals_are_traces()
    ensures { AreTraces }
{}

/// Examples of the definitions, worked out by hand.
pub fn worked_examples()
    ensures { Examples }
{}
