ghost use Rattle.event_log.specs.Examples.{Examples};

/// The definitions on small inputs.
pub fn worked_examples()
    ensures { Examples }
{}
