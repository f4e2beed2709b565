ghost use Rattle.std.specs.Prelude.{◌≡◌, not};
ghost use Rattle.kernel_model.specs.History.{is_outside};
ghost use Rattle.kernel_state.specs.Processors.{processor_of};

use smc_abi::{Answer, Regs};

/// What a processor that is inside came for.
#[derive(Clone, Copy)]
pub enum Errand {
    /// An answer that was fixed as it came in.
    Fixed(Answer),
    /// The call of this slot.
    InSlot(u8),
}

/// A processor.
#[derive(Clone, Copy)]
pub enum Processor {
    /// It runs the normal world.
    Outside,
    /// It came in with these registers, and is granted so many steps.
    Inside {
        regs: Regs,
        steps: u32,
        errand: Errand,
    },
}

impl Processor {
    /// It has come in, and has not gone out since.
    pub fn is_inside(&self) -> bool
        ensures { result ≡ not (is_outside (processor_of self.now)) }
    {
        matches!(self, Processor::Inside { .. })
    }
}
