//! A processor that comes in to resume a call.
ghost use Rattle.std.specs.Prelude.{◌≡◌, ℕ, List};
ghost use Rattle.kernel_model.specs.Argument.{reg};
ghost use Rattle.kernel_state.specs.Entering.{CanEnter, Enters, HasEntered};
ghost use Rattle.smc_abi.specs.Call.{call_of};
ghost use Rattle.kernel_entry.specs.Entering.{IsPrepared, WasPrepared, going_on};
ghost use Rattle.kernel_entry.specs.Visiting.{coming_of};

use crate::answering::admit_answer;
use crate::deciding::{code, resumed_call};
use crate::entering::next_place;
use crate::preparing::fit;
use crate::resuming::enter_resumed;
use crate::visitor::{Visitor, make_room_in};
use kernel_state::{Core, EnterRefusal, Work};
use ns_ram::{Lane, Reads};
use resumed_calls::Decided;
use smc_abi::{Call, ERESUME};
use std::alloc::Global;

/// A processor comes in with a resume. Where it is refused the core is as it was.
#[inline(never)]
pub(crate) fn enter_returning(
    alloc: Global,
    core: &mut Core,
    visitor: Visitor,
    lane: &Lane,
) -> Result<Work, EnterRefusal>
    requires can { CanEnter core.old (coming_of visitor) }
    requires resume { call_of (reg visitor.regs.a 0) ≡ Call.Resume }
    ensures { Enters core.old core.new (coming_of visitor) lane.now result }
{
    let Ok(()) = make_room_in(core) else {
        return Err(EnterRefusal::Memory);
    };
    let mut reads = Reads::new(alloc);
    let Ok(call) = resumed_call(alloc, &core.parts, &visitor.regs, lane, &mut reads) else {
        return Err(EnterRefusal::Memory);
    };
    fit(&core.parts.journal, core.parts.setup.terms.most, &reads)?;
    match call {
        Some(decided) => Ok(admit_resumed(core, visitor, decided, reads)),
        None => Ok(admit_answer(core, visitor, code(ERESUME), reads)),
    }
}

/// Lets a processor in for the call that goes on with this, which was prepared for its registers.
#[inline(always)]
fn admit_resumed(core: &mut Core, visitor: Visitor, decided: Decided, reads: Reads) -> Work
    requires can { CanEnter core.old (coming_of visitor) }
    requires prepared { WasPrepared core.old.parts visitor.regs.a (going_on decided reads) }
    ensures { (lane : List ℕ) → IsPrepared core.old.parts visitor.regs.a lane (going_on decided reads)
        → HasEntered core.old core.new (coming_of visitor) lane result }
{
    let entry_at = next_place(&core.parts.journal);
    let call = enter_resumed(&mut core.parts, visitor, decided, reads);
    Work {
        cpu: visitor.cpu,
        entry_at,
        steps: visitor.steps,
        call,
    }
}
