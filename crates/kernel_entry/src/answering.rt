//! A processor that comes in for an answer that is fixed.
ghost use Rattle.std.specs.Prelude.{ℕ, List};
ghost use Rattle.kernel_state.specs.Entering.{CanEnter, Enters, HasEntered};
ghost use Rattle.kernel_state.specs.Setup.{booted_of_setup};
ghost use Rattle.kernel_entry.specs.Deciding.{HasFixedAnswer};
ghost use Rattle.kernel_entry.specs.Entering.{IsPrepared, WasPrepared, answered};
ghost use Rattle.kernel_entry.specs.Visiting.{coming_of};

use crate::entering::next_place;
use crate::fixed::enter_fixed;
use crate::visitor::{Visitor, make_room_in};
use kernel_state::{Carried, Core, EnterRefusal, Work};
use ns_ram::Reads;
use smc_abi::Answer;
use std::alloc::Global;

/// A processor comes in for an answer that its registers fix, and nothing is read. Where it is refused the core is as it was.
#[inline(always)]
pub(crate) fn enter_at_once(
    alloc: Global,
    core: &mut Core,
    visitor: Visitor,
    answer: Answer,
) -> Result<Work, EnterRefusal>
    requires can { CanEnter core.old (coming_of visitor) }
    requires fixed { HasFixedAnswer (booted_of_setup core.old.parts.setup) visitor.regs.a answer }
    ensures { (lane : List ℕ) → Enters core.old core.new (coming_of visitor) lane result }
{
    let Ok(()) = make_room_in(core) else {
        return Err(EnterRefusal::Memory);
    };
    Ok(admit_answer(core, visitor, answer, Reads::new(alloc)))
}

/// Lets a processor in for this answer, which was prepared for its registers.
#[inline(always)]
pub(crate) fn admit_answer(core: &mut Core, visitor: Visitor, answer: Answer, reads: Reads) -> Work
    requires can { CanEnter core.old (coming_of visitor) }
    requires prepared { WasPrepared core.old.parts visitor.regs.a (answered answer reads) }
    ensures { (lane : List ℕ) → IsPrepared core.old.parts visitor.regs.a lane (answered answer reads)
        → HasEntered core.old core.new (coming_of visitor) lane result }
{
    let entry_at = next_place(&core.parts.journal);
    enter_fixed(&mut core.parts, visitor, answer, reads);
    Work {
        cpu: visitor.cpu,
        entry_at,
        steps: visitor.steps,
        call: Carried::Nothing,
    }
}
