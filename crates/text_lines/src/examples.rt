ghost use Rattle.text_lines.specs.Examples.{Examples};

/// Lines and words of small texts, computed.
#[tactic(auto, unfolding(crate::specs::Lines::is_skipped))]
pub fn worked_examples()
    ensures { Examples }
{}
