ghost use Rattle.supplicant.specs.Examples.{Examples};
ghost use Rattle.supplicant.specs.RequestExamples.{RequestExamples};

/// The definitions on small inputs.
pub fn worked_examples()
    ensures files { Examples }
    ensures requests { RequestExamples }
{}
