ghost use Rattle.core_at_work.specs.Outgoing.{HaveTheirOwn};

use kernel_state::{Core, Ran};

/// A core, and for each of its processors that is inside what it goes out with.
#[derive(Drop)]
pub struct CoreAtWork {
    pub core: Core,
    /// The open entry of each processor that is inside, behind its granted steps, by the processor's number.
    pub(crate) outgoing: Vec<Option<Ran>>,
    ghost own: { ∥ HaveTheirOwn core outgoing.items ∥₁ },
}
