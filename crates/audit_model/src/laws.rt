//! Laws of the definitions, each the contract of a function that does nothing.

ghost use Rattle.audit_model.specs.Laws.{EachHasAVerdict, OneVerdict, PrefixesCanBe};
ghost use Rattle.audit_model.specs.VerdictExamples.{VerdictExamples};

/// Events that a legal and steady history begins with are one.
pub fn prefixes_can_be()
    ensures { PrefixesCanBe }
{}

/// A journal has one verdict at most.
pub fn one_verdict()
    ensures { OneVerdict }
{}

/// Each journal of a boot that a core can have has a verdict.
pub fn each_has_a_verdict()
    ensures { EachHasAVerdict }
{}

/// Verdicts on journals that were worked out by hand.
pub fn verdict_examples()
    ensures { VerdictExamples }
{}
