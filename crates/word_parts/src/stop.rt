//! Why a play stops.

ghost use Rattle.std.specs.Prelude.{◌≡◌};

use kernel_state::EnterRefusal;
use std::alloc::AllocError;

/// Why a play stopped before its end.
#[derive(Clone, Copy)]
pub enum Stop {
    /// An entry was refused, since all entries would then have read more than 2^28 bytes.
    Full,
    /// The sink counted a fault.
    Failed,
    /// Want of memory.
    Memory,
}

impl From<EnterRefusal> for Stop {
    ghost use Rattle.word_parts.specs.Stop.{stop_of};

    ghost from_gives = { λ refusal stop. stop ≡ stop_of refusal };

    fn from(refusal: EnterRefusal) -> Stop {
        match refusal {
            EnterRefusal::Full { .. } => Stop::Full,
            EnterRefusal::Memory => Stop::Memory,
        }
    }
}

impl From<AllocError> for Stop {
    ghost use Rattle.word_parts.specs.declared.stop.Stop.TheVariants.{Memory};

    ghost from_gives = { λ _ stop. stop ≡ Memory };

    fn from(_refused: AllocError) -> Stop {
        Stop::Memory
    }
}
