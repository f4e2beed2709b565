ghost use Rattle.std.specs.Prelude.{◌≡◌, ◌↔◌, IsTrue};
ghost use Rattle.std.specs.IoError.{error_kind};

use std::io::{Error, ErrorKind};

/// How often in a row a read, a write or a flush is tried that a signal interrupts each time. Then it
/// counts as a fault, so that every call returns.
pub const MOST_TRIES: u32 = 1000;

/// Whether a signal interrupted it, so that it may be tried again.
pub(crate) fn is_interruption(error: &Error) -> bool
    ensures { IsTrue result ↔ (error_kind error.now ≡ ErrorKind.Interrupted) }
{
    error.kind() == ErrorKind::Interrupted
}
