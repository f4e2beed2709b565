use base::NoMemory;
use smc_abi::Answer;

/// Why a call takes no slot.
#[derive(Drop)]
pub(crate) enum Refused {
    /// One of the tests of every call failed, which answers it.
    Answer(Answer),
    /// Want of memory: nothing is decided.
    Memory,
}

impl From<NoMemory> for Refused {
    ghost use Rattle.std.specs.Prelude.{◌≡◌};
    ghost use Rattle.new_calls.specs.declared.refused.Refused.TheVariants.{Memory};

    ghost from_gives = { λ _ refused. refused ≡ Memory };

    fn from(_refused: NoMemory) -> Refused {
        Refused::Memory
    }
}
