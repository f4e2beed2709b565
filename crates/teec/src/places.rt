//! Where a client keeps what it shares with a core.

ghost use Rattle.std.specs.Prelude.{◌≡◌, ◌<◌};
ghost use Rattle.teec.specs.Places.{memory_at};

/// The argument of a call.
pub(crate) const ARGUMENT_AT: u64 = 0x4000_0000;

/// The argument of a call's cancellation.
pub(crate) const CANCEL_AT: u64 = 0x4000_1000;

/// The buffer in which a core asks for something.
pub(crate) const MESSAGE_AT: u64 = 0x4001_0000;

/// The cookie by which the core names that buffer.
pub(crate) const MESSAGE_COOKIE: u64 = 1;

/// The number by which each call can be cancelled.
pub(crate) const CANCEL_ID: u32 = 1;

/// The most bytes of a parameter's memory.
const MEMORY_BYTES: u64 = 65_536;

/// Where the memory of the first parameter stands.
const MEMORY_AT: u64 = 0x4010_0000;

/// Where the memory of the parameter of this number stands, counted from 0.
pub(crate) fn memory_at(number: u64) -> u64
    requires { number < 4 }
    ensures { result ≡ memory_at number }
{
    MEMORY_AT + MEMORY_BYTES * number
}
