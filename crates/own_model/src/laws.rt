//! What holds of the definitions themselves.
ghost use Rattle.own_model.specs.Examples.{Examples};
ghost use Rattle.own_model.specs.Laws.{MoreStepsAgree, StaysInOrder};
ghost use Rattle.own_model.specs.Shown.{ExitsShowReplies};

/// A session's machine stays in order, whatever happens to it.
pub fn machines_stay_in_order()
    ensures { StaysInOrder }
{}

/// A machine that is given more steps to a job's stop than it takes answers the same.
pub fn more_steps_agree()
    ensures { MoreStepsAgree }
{}

/// What the normal world is shown of a call that goes out with a reply, its registers a0 to a3 and what is written for it, is a
/// function of that reply and of the call's places (`shown`): its slot, its area and buffer, the slot of the call that it wakes, its
/// argument, the places of its parameters, and the number of the session that it opens. The registers a4 to a7 are no function of
/// the reply: they are the caller's own, as the processor came in with them.
pub fn exits_show_replies()
    ensures { ExitsShowReplies }
{}

/// Examples of the definitions, worked out by hand.
pub fn worked_examples()
    ensures { Examples }
{}
