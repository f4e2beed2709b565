ghost use Rattle.session_compare.specs.Examples.{Examples};

/// Where lists of own events differ, worked out by hand.
pub fn worked_examples()
    ensures { Examples }
{}
