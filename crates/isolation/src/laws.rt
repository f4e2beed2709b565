//! What holds of the logs that are read off.
ghost use Rattle.isolation.specs.Logs.{LogsHaveTheirCalls};

/// The log of a session whose application's sessions share no instance has each new call that has got a slot in it while the kernel
/// kept the session, behind what the log had before, its open among them: so no call of it is left out.
pub fn logs_have_their_calls()
    ensures { LogsHaveTheirCalls }
{}
