ghost use Rattle.std.specs.Prelude.{◌≡◌};
ghost use Rattle.ta_isa.specs.declared.image_fault.ImageFault.TheVariants.{Memory};

use std::alloc::{AllocError, AllocFailed};
use std::error::Error;
use std::fmt;

/// Why bytes are no image, in the order in which the faults are looked for.
#[derive(Clone, Copy, Debug, PartialEq, Eq)]
pub enum ImageFault {
    /// Which part of the header: 0 where it is cut or has another magic, 1 flags that an image may not
    /// have, 2 pages that are not 1 to 64, 3 a count of 0 or another length than the count asks for.
    BadHeader(u8),
    /// More than 8192 instructions.
    TooLarge,
    /// The first entry point that is not below the count.
    BadEntry(u8),
    /// The first bad instruction.
    BadOp(u32),
    /// Want of memory.
    Memory,
}

impl fmt::Display for ImageFault {
    fn fmt<W: fmt::Write>(&self, f: &mut fmt::Formatter<W>) -> fmt::Result {
        match self {
            ImageFault::BadHeader(part) => write!(f, "bad part {part} of the image's header"),
            ImageFault::TooLarge => f.write_str("too many instructions"),
            ImageFault::BadEntry(number) => write!(f, "entry point {number} is no instruction"),
            ImageFault::BadOp(number) => write!(f, "bad instruction {number}"),
            ImageFault::Memory => f.write_str("out of memory"),
        }
    }
}

impl Error for ImageFault {}

impl From<AllocError> for ImageFault {
    ghost from_gives = { λ _ e. e ≡ Memory };

    fn from(_refused: AllocError) -> ImageFault {
        ImageFault::Memory
    }
}

impl<T: Drop> From<AllocFailed<T>> for ImageFault {
    ghost from_gives = { λ _ e. e ≡ Memory };

    fn from(_refused: AllocFailed<T>) -> ImageFault {
        ImageFault::Memory
    }
}
