//! Small boots of which the replies are computed.
ghost use Rattle.group_model.specs.Examples.{Examples};

/// What happens to groups of small boots and what they are answered, with what their machines answer.
#[tactic(auto, unfolding(base::specs::Zeros::zeros))]
pub fn worked_examples()
    ensures { Examples }
{}
