//! Laws of the definitions, each the contract of a function that does nothing.

ghost use Rattle.workload.specs.Bounded.{EveryTraceReadsLittle};
ghost use Rattle.workload.specs.Examples.{Examples};

/// Each call of a made trace has no argument or one at 40000000, and what is written there is a whole argument of at most 96
/// bytes; none of its parameters names memory. So no entry reads more.
pub fn made_traces_read_little()
    ensures { EveryTraceReadsLittle }
{}

/// What the definitions say of small inputs.
#[tactic(auto, unfolding(crate::specs::Work::items_of, crate::specs::Work::add_image, crate::specs::Work::open_argument, crate::specs::Message::head, crate::specs::Message::param))]
pub fn worked_examples()
    ensures { Examples }
{}
