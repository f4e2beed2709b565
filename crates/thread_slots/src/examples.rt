ghost use Rattle.thread_slots.specs.Examples.{Examples};

/// The definitions on small inputs.
pub fn worked_examples()
    ensures { Examples }
{}
