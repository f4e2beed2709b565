//! Laws of the definitions, each the contract of a function that does nothing.

ghost use Rattle.trace_bin.specs.Grammar.{AllBytes};
ghost use Rattle.trace_bin.specs.Spelling.{WrittenIsRead};
ghost use Rattle.trace_bin.specs.Examples.{Examples};

/// Bytes spell one trace, or have one first fault.
pub fn one_meaning()
    ensures { AllBytes }
{}

/// What is written of a trace is read as that trace.
pub fn written_is_read()
    ensures { WrittenIsRead }
{}

/// What the definitions say of small inputs.
#[tactic(auto, unfolding(crate::specs::Record::kind_tagged, crate::specs::Record::is_whole, crate::specs::Rules::rules_of, crate::specs::Rules::added, crate::specs::Rules::record_rules, crate::specs::Rules::after_record, crate::specs::Rules::behind_record, crate::specs::Grammar::front_fault, crate::specs::Spelling::counted, crate::specs::Spelling::item_record))]
pub fn worked_examples()
    ensures { Examples }
{}
