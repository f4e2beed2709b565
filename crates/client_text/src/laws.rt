ghost use Rattle.client_text.specs.Examples.{Examples};
ghost use Rattle.client_text.specs.Grammar.{EveryText};

/// Each text spells one script, or has one first fault, and not both.
pub fn every_text_has_one_meaning()
    ensures { EveryText }
{}

/// Examples of the definitions, worked out by hand.
pub fn worked_examples()
    ensures { Examples }
{}
