ghost use Rattle.smc_port.specs.Examples.{Examples};

/// The definitions on small inputs.
pub fn worked_examples()
    ensures { Examples }
{}
