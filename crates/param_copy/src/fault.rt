use base::NoMemory;
use std::error::Error;
use std::fmt;

/// Why the parameters of a call aren't copied. A fault names the first faulty parameter by its number in the
/// argument, and of that parameter it is the first that fits, in the order of the list here.
#[derive(Clone, Copy, Debug, PartialEq, Eq, Hash)]
pub enum CopyFault {
    /// The memory has more than `MAX_MEMREF_BYTES` bytes.
    TooLong(u8),
    /// The parameter's buffer isn't registered.
    Cookie(u8),
    /// The memory ends behind the registered buffer, or lies outside RAM.
    Range(u8),
    /// The page of this number, counted from 0, is the first bad one of the parameter's page lists.
    Page(u8, u32),
    /// Want of memory.
    Memory,
}

impl fmt::Display for CopyFault {
    fn fmt<W: fmt::Write>(&self, f: &mut fmt::Formatter<W>) -> fmt::Result {
        match self {
            CopyFault::TooLong(number) => write!(f, "parameter {number} is too long"),
            CopyFault::Cookie(number) => write!(f, "parameter {number} has an unknown cookie"),
            CopyFault::Range(number) => write!(f, "parameter {number} is out of range"),
            CopyFault::Page(number, page) => {
                write!(f, "page {page} of parameter {number} is no page of RAM")
            }
            CopyFault::Memory => f.write_str("out of memory"),
        }
    }
}

impl Error for CopyFault {}

impl From<NoMemory> for CopyFault {
    ghost use Rattle.std.specs.Prelude.{◌≡◌};
    ghost use Rattle.param_copy.specs.declared.fault.CopyFault.TheVariants.{Memory};

    ghost from_gives = { λ _ fault. fault ≡ Memory };

    fn from(_refused: NoMemory) -> CopyFault {
        CopyFault::Memory
    }
}
