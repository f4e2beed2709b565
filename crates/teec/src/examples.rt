ghost use Rattle.teec.specs.CallExamples.{CallExamples};
ghost use Rattle.teec.specs.Examples.{Examples};

/// The definitions on small inputs.
pub fn worked_examples()
    ensures calls { CallExamples }
    ensures runs { Examples }
{}
