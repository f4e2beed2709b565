ghost use Rattle.line_grammar.specs.Examples.{Examples};

/// A grammar of a few lines, and what some texts spell in it, computed.
pub fn worked_examples()
    ensures { Examples }
{}
