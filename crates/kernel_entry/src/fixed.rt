//! Entries whose answer is fixed as they come in.
ghost use Rattle.std.specs.Prelude.{◌+◌, ◌<◌, ◌^◌, length};
ghost use Rattle.event_journal.specs.Journal.{copied_bytes};
ghost use Rattle.kernel_model.specs.Decision.{Answers};
ghost use Rattle.kernel_model.specs.Kernel.{Kernel};
ghost use Rattle.kernel_state.specs.declared.processor.Errand.TheVariants.{Fixed};
ghost use Rattle.ns_ram.specs.Reads.{total_bytes};
ghost use Rattle.kernel_entry.specs.Visiting.{IsInside, StandsAfter};

use crate::visitor::{Visitor, let_in};
use kernel_state::{Errand, Parts};
use ns_ram::Reads;
use smc_abi::Answer;

/// Lets a processor in for an answer that is fixed: the parts stand for the kernel after it.
#[inline(always)]
pub fn enter_fixed(parts: &mut Parts, visitor: Visitor, answer: Answer, reads: Reads)
    requires cpu { visitor.cpu < length parts.old.processors.items }
    requires room { parts.old.setup.cpus < parts.old.journal.spare }
    requires few { copied_bytes parts.old.journal.events + total_bytes reads < 2 ^ 64 }
    ensures inside { IsInside parts.old parts.new visitor (Fixed answer) reads }
    ensures stands { (kernel : Kernel) → StandsAfter parts.old parts.new visitor kernel (Answers answer) }
{
    let_in(parts, visitor, Errand::Fixed(answer), reads);
}
