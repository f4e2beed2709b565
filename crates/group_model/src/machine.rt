//! What holds of the machine of a group alone.
ghost use Rattle.group_model.specs.Machine.{MoreStepsAgree, StaysInOrder};

/// The machine of a group stays in order, whatever happens to it.
pub fn machines_stay_in_order()
    ensures { StaysInOrder }
{}

/// A machine that is given more steps to a job's stop than it takes answers the same.
pub fn more_steps_agree()
    ensures { MoreStepsAgree }
{}
