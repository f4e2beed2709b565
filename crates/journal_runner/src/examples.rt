ghost use Rattle.journal_runner.specs.Examples.{Examples};

use audit_model::verdict_examples;

/// What the words write of small inputs, computed.
pub fn worked_examples()
    ensures { Examples }
{
    verdict_examples();
}
