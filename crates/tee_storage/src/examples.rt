ghost use Rattle.tee_storage.specs.Examples.{Examples};

/// The definitions on small inputs.
pub fn worked_examples()
    ensures { Examples }
{}
