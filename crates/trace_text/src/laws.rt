//! Laws of the definitions, each the contract of a function that does nothing.

ghost use Rattle.trace_text.specs.Grammar.{EveryText};
ghost use Rattle.trace_text.specs.Examples.{Examples};

/// A text spells one trace, or has one first fault.
pub fn one_meaning()
    ensures { EveryText }
{}

/// What the rules of lines and the limits of traces say of a few small inputs.
pub fn worked_examples()
    ensures { Examples }
{}
