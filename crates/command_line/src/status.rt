//! The status that a program ends with.

ghost use Rattle.std.specs.Prelude.{◌≡◌};
ghost use Rattle.command_line.specs.Status.{status_of};

use std::alloc::AllocError;

/// The status of a program that had no memory.
const NO_MEMORY: u8 = 6;

/// The exit status of a program that came to this status, or had no memory to come so far.
pub fn exit_status(status: Result<u8, AllocError>) -> u8
    ensures { result ≡ status_of status }
{
    match status {
        Ok(status) => status,
        Err(_) => NO_MEMORY,
    }
}
