//! What leaves a kernel and the machine of a realm tied.
ghost use Rattle.realm_model.specs.Laws.{BootsAreTied, FixedKeepTied, InterruptsKeepTied, OtherCallsKeepTied};
ghost use Rattle.realm_model.specs.Laws.{OtherExitsKeepTied, OtherResumesKeepTied, OwnCallsKeepTied, OwnExitsKeepTied, OwnResumesKeepTied};

/// As it boots a kernel is tied to the machine of each realm, in which nobody is there.
pub fn boots_are_tied()
    ensures { BootsAreTied }
{}

/// A fixed answer leaves them tied: at most it is noted that one session's client found no thread, and nothing happens to
/// the machine.
pub fn fixed_answers_keep_realms()
    ensures { FixedKeepTied }
{}

/// So does an exit from a call that isn't the realm's: nothing happens to the machine.
pub fn exits_of_others_keep_realms()
    ensures { OtherExitsKeepTied }
{}

/// And a resume of one.
pub fn resumes_of_others_keep_realms()
    ensures { OtherResumesKeepTied }
{}

/// And a new call that isn't the realm's.
pub fn calls_of_others_keep_realms()
    ensures { OtherCallsKeepTied }
{}

/// So does a new call of the realm, whatever its tests come to: the machine does the same with its event. The open of one
/// session comes first, and each other call of it behind.
pub fn own_calls_keep_realms()
    ensures { OwnCallsKeepTied }
{}

/// So does an exit from a call of the realm that is an interrupt: nothing happens to the machine, and the call's job is
/// further ahead of the machine's.
pub fn interrupts_keep_realms()
    ensures { InterruptsKeepTied }
{}

/// And any other exit from a call of the realm, where no job takes more steps than the machine gives it: the machine's call
/// goes out with the same.
pub fn own_exits_keep_realms()
    ensures { OwnExitsKeepTied }
{}

/// So does a resume of a call of the realm: the machine's call sees that it was cancelled, is told whether there is room where
/// its instance is gone, and is given the same.
pub fn own_resumes_keep_realms()
    ensures { OwnResumesKeepTied }
{}
