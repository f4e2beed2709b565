//! What a processor that comes in carries.
ghost use Rattle.std.specs.Prelude.{◌≡◌, IfSome};
ghost use Rattle.kernel_model.specs.Kernel.{PendingCall};
ghost use Rattle.kernel_state.specs.Calls.{IsCall};
ghost use Rattle.kernel_state.specs.Work.{IsCarriedAs};
ghost use Rattle.ns_ram.specs.Reads.{total_bytes};

use frame_pool::Pages;
use kernel_state::Carried;
use ns_ram::Reads;
use rpc_cont::{Cont, Phase};

/// The call, by whether it runs.
pub(crate) fn carried_call(cont: Box<Cont<Pages>>) -> Carried
    ensures { (call : PendingCall) → IsCall cont.value call → IsCarriedAs result call call.phase }
{
    match cont.phase {
        Phase::Runs => Carried::Running(cont),
        Phase::Asks | Phase::Waits | Phase::Ends => Carried::Resting(cont),
    }
}

/// How many bytes were read. None only where 64 bits don't have the number.
pub fn total_bytes(reads: &Reads) -> Option<u64>
    ensures { IfSome result (λ total. total ≡ total_bytes reads.now) }
{
    let mut total: u64 = 0;
    for read in reads.as_slice() {
        total = total.checked_add(read.bytes.len() as u64)?;
    }
    Some(total)
}
