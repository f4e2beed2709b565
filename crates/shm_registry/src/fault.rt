use base::NoMemory;
use std::error::Error;
use std::fmt;

/// Why a buffer isn't registered.
#[derive(Clone, Copy, Debug, PartialEq, Eq, Hash)]
pub enum RegisterFault {
    /// The cookie, which is this one, is registered.
    Repeated(u64),
    /// As many buffers are registered as there may be.
    Full,
}

impl fmt::Display for RegisterFault {
    fn fmt<W: fmt::Write>(&self, f: &mut fmt::Formatter<W>) -> fmt::Result {
        match self {
            RegisterFault::Repeated(cookie) => write!(f, "cookie {cookie:x} is registered"),
            RegisterFault::Full => f.write_str("too many registered buffers"),
        }
    }
}

impl Error for RegisterFault {}

/// Why a buffer stays registered.
#[derive(Clone, Copy, Debug, PartialEq, Eq, Hash)]
pub enum UnregisterFault {
    /// The cookie isn't registered.
    Unknown,
    /// The buffer is in use, and this is the lowest slot that pins it.
    Pinned(u8),
}

impl fmt::Display for UnregisterFault {
    fn fmt<W: fmt::Write>(&self, f: &mut fmt::Formatter<W>) -> fmt::Result {
        match self {
            UnregisterFault::Unknown => f.write_str("unknown cookie"),
            UnregisterFault::Pinned(slot) => write!(f, "in use by slot {slot}"),
        }
    }
}

impl Error for UnregisterFault {}

/// Why a part of a buffer has no pieces.
#[derive(Clone, Copy, Debug, PartialEq, Eq, Hash)]
pub enum ResolveFault {
    /// The cookie isn't registered.
    Unknown,
    /// The part ends behind the end of the buffer.
    Range,
    /// Want of memory.
    Memory,
}

impl fmt::Display for ResolveFault {
    fn fmt<W: fmt::Write>(&self, f: &mut fmt::Formatter<W>) -> fmt::Result {
        match self {
            ResolveFault::Unknown => f.write_str("unknown cookie"),
            ResolveFault::Range => f.write_str("behind the end of the buffer"),
            ResolveFault::Memory => f.write_str("out of memory"),
        }
    }
}

impl Error for ResolveFault {}

impl From<NoMemory> for ResolveFault {
    ghost use Rattle.std.specs.Prelude.{◌≡◌};
    ghost use Rattle.shm_registry.specs.declared.fault.ResolveFault.TheVariants.{Memory};

    ghost from_gives = { λ _ fault. fault ≡ Memory };

    fn from(_refused: NoMemory) -> ResolveFault {
        ResolveFault::Memory
    }
}
