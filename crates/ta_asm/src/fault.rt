ghost use Rattle.std.specs.Prelude.{◌≡◌};
ghost use Rattle.ta_asm.specs.declared.fault.AsmFault.TheVariants.{Memory};

use std::alloc::{AllocError, AllocFailed};
use std::error::Error;
use std::fmt;

/// Why a text has no image. The number is that of the least faulty line, counted from 1.
#[derive(Clone, Copy, Debug, PartialEq, Eq)]
pub enum AsmFault {
    /// A line of another form or at another place, a number out of its range, an instruction too many, or a label
    /// that no instruction follows. Behind the last line: a part is missing.
    BadLine(u32),
    /// The first use of a label that no line defines.
    UnknownLabel(u32),
    /// The second line of a label.
    RepeatedLabel(u32),
    /// Want of memory.
    Memory,
}

impl fmt::Display for AsmFault {
    fn fmt<W: fmt::Write>(&self, f: &mut fmt::Formatter<W>) -> fmt::Result {
        match self {
            AsmFault::BadLine(line) => write!(f, "bad line {line}"),
            AsmFault::UnknownLabel(line) => write!(f, "unknown label in line {line}"),
            AsmFault::RepeatedLabel(line) => write!(f, "repeated label in line {line}"),
            AsmFault::Memory => write!(f, "out of memory"),
        }
    }
}

impl Error for AsmFault {}

impl From<AllocError> for AsmFault {
    ghost from_gives = { λ _ e. e ≡ Memory };

    fn from(_refused: AllocError) -> AsmFault {
        AsmFault::Memory
    }
}

impl<T: Drop> From<AllocFailed<T>> for AsmFault {
    ghost from_gives = { λ _ e. e ≡ Memory };

    fn from(_refused: AllocFailed<T>) -> AsmFault {
        AsmFault::Memory
    }
}
