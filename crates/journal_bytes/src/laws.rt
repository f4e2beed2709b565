//! Laws of the definitions, each the contract of a function that does nothing.

ghost use Rattle.journal_bytes.specs.Grammar.{AllBytes};
ghost use Rattle.journal_bytes.specs.Spelling.{WrittenIsRead};
ghost use Rattle.journal_bytes.specs.Examples.{Examples};

/// Bytes spell one journal, or have one first fault.
pub fn one_meaning()
    ensures { AllBytes }
{}

/// What is written of a boot and its events spells them, whatever stands behind it.
pub fn written_is_read()
    ensures { WrittenIsRead }
{}

/// What the definitions say of small inputs.
pub fn worked_examples()
    ensures { Examples }
{}
