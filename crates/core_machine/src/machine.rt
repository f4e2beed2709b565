ghost use Rattle.std.specs.Prelude.{◌≡◌, length};
ghost use Rattle.kernel_state.specs.Meaning.{booted_of};

use core_at_work::CoreAtWork;
use ns_ram::Lane;

/// A core at work, and for each of its processors the RAM that it sees.
#[derive(Drop)]
pub struct Machine {
    pub(crate) at_work: CoreAtWork,
    /// The RAM that each processor sees, by its number.
    pub(crate) lanes: Vec<Lane>,
    ghost each_sees: { length lanes.items ≡ (booted_of at_work.core).cpus },
}
