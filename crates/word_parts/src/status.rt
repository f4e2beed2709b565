ghost use Rattle.std.specs.Prelude.{◌≡◌};
ghost use Rattle.word_parts.specs.Status.{number_of};

use std::alloc::AllocError;

/// How a call of the program ends.
#[derive(Clone, Copy)]
pub enum Status {
    /// The input was read to its end, and all that it asks for is written.
    Ok,
    /// The words ask for nothing that the program does; the usage line is written.
    Usage,
    /// The input leaves its grammar; the line that says where and how is written.
    BadTrace,
    /// The source counted a fault.
    ReadFault,
    /// The sink counted a fault.
    WriteFault,
    /// Want of memory.
    Memory,
    /// The input is longer than 2^24 bytes, or its trace has more than 65,536 SMC items, or an entry was refused, since
    /// all entries would then have read more than 2^28 bytes.
    TooLong,
}

impl Status {
    /// The number that the program ends with.
    pub fn number(self) -> u8
        ensures { result ≡ number_of self }
    {
        match self {
            Status::Ok => 0,
            Status::Usage => 2,
            Status::BadTrace => 3,
            Status::ReadFault => 4,
            Status::WriteFault => 5,
            Status::Memory => 6,
            Status::TooLong => 7,
        }
    }
}

impl From<AllocError> for Status {
    ghost use Rattle.word_parts.specs.declared.status.Status.TheVariants.{Memory};

    ghost from_gives = { λ _ status. status ≡ Memory };

    fn from(_refused: AllocError) -> Status {
        Status::Memory
    }
}
