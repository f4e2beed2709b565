ghost use Rattle.kernel_state.specs.Carried.{CanBeGranted};

use crate::carried::Carried;
use rpc_cont::ContStop;

/// A processor's open entry, before its granted steps. It may be dropped: its processor then stays inside.
#[derive(Drop)]
pub struct Work {
    pub cpu: u8,
    /// The place of the entry among the events, from 0.
    pub entry_at: u64,
    /// The granted steps.
    pub steps: u32,
    pub call: Carried,
    pub ghost ready: { ∥ CanBeGranted steps call ∥₁ },
}

/// A processor's open entry, behind its granted steps. It may be dropped: its processor then stays inside.
#[derive(Drop)]
pub struct Ran {
    pub cpu: u8,
    /// The place of the entry among the events, from 0.
    pub entry_at: u64,
    pub call: Carried,
    /// Why the call that ran stopped, or that its steps are used.
    pub stop: Option<ContStop>,
}
