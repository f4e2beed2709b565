//! A processor that comes in, and what is written down of that.
ghost use Rattle.std.specs.Prelude.{◌≡◌, ◌+◌, ◌<◌, ◌≤◌, ◌^◌, OnErr, OnOk, length};
ghost use Rattle.event_journal.specs.Journal.{copied_bytes};
ghost use Rattle.ns_ram.specs.Reads.{total_bytes};
ghost use Rattle.kernel_entry.specs.Entering.{HasMoreRoom};
ghost use Rattle.kernel_entry.specs.Visiting.{IsInside};

use base::NoMemory;
use event_journal::Event;
use event_log::Log;
use kernel_state::{Core, Errand, Parts, Processor};
use ns_ram::Reads;
use smc_abi::Regs;

/// A processor that comes in: its number, its registers, and the steps that it is granted.
#[derive(Clone, Copy)]
pub struct Visitor {
    pub cpu: u8,
    pub regs: Regs,
    pub steps: u32,
}

/// Makes room for one entry, and for the exits of so many processors.
pub fn make_room(journal: &mut Log, cpus: u8) -> Result<(), NoMemory>
    ensures events { journal.new.events ≡ journal.old.events }
    ensures keeps { journal.new.keeps ≡ journal.old.keeps }
    ensures room { OnOk result (cpus + 1 ≤ journal.new.spare) }
    ensures kept { journal.old.spare ≤ journal.new.spare }
    ensures err { OnErr result (journal.new ≡ journal.old) }
{
    journal.reserve(u32::from(cpus) + 1)
}

/// Makes room in a core for one entry, and for the exits of all its processors.
#[inline(always)]
pub(crate) fn make_room_in(core: &mut Core) -> Result<(), NoMemory>
    ensures more { HasMoreRoom core.old.parts core.new.parts }
    ensures room { OnOk result (core.new.parts.setup.cpus + 1 ≤ core.new.parts.journal.spare) }
{
    make_room(&mut core.parts.journal, core.parts.setup.cpus)
}

/// Lets a processor in for this, with what its entry has read.
#[inline(always)]
pub(crate) fn let_in(parts: &mut Parts, visitor: Visitor, errand: Errand, reads: Reads)
    requires cpu { visitor.cpu < length parts.old.processors.items }
    requires room { 0 < parts.old.journal.spare }
    requires few { copied_bytes parts.old.journal.events + total_bytes reads < 2 ^ 64 }
    ensures { IsInside parts.old parts.new visitor errand reads }
{
    let Visitor { cpu, regs, steps } = visitor;
    parts.processors[usize::from(cpu)] = Processor::Inside {
        regs,
        steps,
        errand,
    };
    parts.journal.push(Event::Entry {
        cpu,
        regs,
        steps,
        reads,
    });
}
