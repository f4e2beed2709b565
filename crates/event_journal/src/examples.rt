ghost use Rattle.event_journal.specs.Examples.{Examples};

/// The definitions on small inputs.
pub fn worked_examples()
    ensures { Examples }
{}
