ghost use Rattle.std.specs.Prelude.{◌≡◌};
ghost use Rattle.kernel_state.specs.Meaning.{terms_of};
ghost use Rattle.kernel_state.specs.Terms.{kept_terms};

use core_at_work::CoreAtWork;
use ns_ram::Lane;

/// A core on which the events of a journal are done again.
#[derive(Drop)]
pub struct Replay {
    /// The core, which keeps the events that were done.
    pub at_work: CoreAtWork,
    /// RAM, into which the bytes that an entry read are laid before it is done.
    pub lane: Lane,
    pub ghost kept: { terms_of at_work.core ≡ kept_terms },
}
