//! What holds of machines and the plays at which they stand.
ghost use Rattle.core_machine.specs.Laws.{MachinesStand, TurnsAreTaken};

/// Each machine stands at a play, with RAM for each processor, and what can come in the play can come in the machine.
pub fn machines_stand()
    ensures { MachinesStand }
{}

/// Each processor comes in and goes out by turns, and no other changes which it is.
pub fn turns_are_taken()
    ensures { TurnsAreTaken }
{}
