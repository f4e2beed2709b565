//! What a processor goes out with.
ghost use Rattle.std.specs.Prelude.{◌≡◌};
ghost use Rattle.core_at_work.specs.Panics.{stop_panic};

use rpc_cont::ContStop;
use smc_abi::Regs;

/// What a processor went out with.
#[derive(Clone, Copy)]
pub struct WentOut {
    pub regs: Regs,
    /// The code of the panic in which the granted steps of its call have ended, if they did: the registers don't show it.
    pub panic: Option<u32>,
}

/// The code of the panic by which a call has stopped, if it did.
pub(crate) fn panic_of(stop: Option<ContStop>) -> Option<u32>
    ensures { result ≡ stop_panic stop }
{
    match stop {
        Some(ContStop::Panicked(code)) => Some(code),
        Some(ContStop::Interrupted | ContStop::Asks | ContStop::Ended(_)) | None => None,
    }
}
