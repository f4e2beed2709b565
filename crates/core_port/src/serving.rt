//! One SMC of a core's processor 0.
ghost use Rattle.std.specs.Prelude.{◌≡◌, length, OnOk};
ghost use Rattle.core_at_work.specs.Insides.{IsOutside};
ghost use Rattle.core_port.specs.Serving.{Serves};

use core_at_work::CoreAtWork;
use kernel_entry::Visitor;
use kernel_state::EnterRefusal;
use ns_ram::Lane;
use smc_abi::Regs;
use std::alloc::Global;

/// The processor that makes the SMCs of a port.
const CPU: u8 = 0;

/// The steps that each SMC is granted.
const STEPS: u32 = 10_000;

/// Lets the processor in with these registers and out again. Where it is refused, the core and RAM are as they were.
pub(crate) fn serve(
    alloc: Global,
    at_work: &mut CoreAtWork,
    lane: &mut Lane,
    regs: Regs,
) -> Result<Regs, EnterRefusal>
    requires { IsOutside at_work.old.core 0 }
    ensures serves { Serves at_work.old.core at_work.new.core lane.old lane.new regs result }
    ensures whole { OnOk result (length lane.new ≡ 0x400000) }
{
    let visitor = Visitor {
        cpu: CPU,
        regs,
        steps: STEPS,
    };
    at_work.enter(alloc, visitor, lane)?;
    let out = at_work.leave(CPU, lane);
    whole(lane);
    Ok(out.regs)
}

/// That a lane has all bytes of RAM.
pub(crate) fn whole(lane: &Lane)
    ensures { length lane.now ≡ 0x400000 }
{
    let _none = lane.at(ns_ram::RAM_START, 0);
}
