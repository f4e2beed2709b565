ghost use Rattle.kernel_state.specs.Replay.{Replays};

use crate::parts::Parts;

/// The core. Contracts see what it was booted with and its events; its kernel is what those make of the first one, and
/// its parts stand for that.
#[derive(Drop)]
pub struct Core {
    pub parts: Parts,
    pub ghost replay: { ∥ Replays parts ∥₁ },
}
