ghost use Rattle.std.specs.Prelude.{◌≡◌};
ghost use Rattle.rpc_cont.specs.Advancing.{phase_after};

use crate::phase::Phase;
use ta_params::CallResult;

/// Why a call stopped.
#[derive(Clone, Copy, PartialEq, Eq)]
pub enum ContStop {
    /// All granted steps are used.
    Interrupted,
    /// It asks the normal world for what stands in its `request`.
    Asks,
    /// It has ended with this result.
    Ended(CallResult),
    /// One of its entry points panicked, with this code.
    Panicked(u32),
}

impl ContStop {
    /// How far a call has come that stopped so.
    pub(crate) fn phase(self) -> Phase
        ensures { result ≡ phase_after self }
    {
        match self {
            ContStop::Interrupted => Phase::Runs,
            ContStop::Asks => Phase::Asks,
            ContStop::Ended(_) | ContStop::Panicked(_) => Phase::Ends,
        }
    }
}
