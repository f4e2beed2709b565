ghost use Rattle.word_parts.specs.Examples.{Examples};

/// Lines and texts of small traces, computed.
pub fn worked_examples()
    ensures { Examples }
{}
