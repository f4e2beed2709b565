//! What is prepared before a processor comes in.
ghost use Rattle.std.specs.Prelude.{◌≡◌, ◌≤◌, OnOk};
ghost use Rattle.event_journal.specs.Journal.{copied_bytes};
ghost use Rattle.kernel_state.specs.Setup.{booted_of_setup};
ghost use Rattle.kernel_state.specs.Tables.{HasFreePages, tables_of};
ghost use Rattle.new_calls.specs.Applying.{HaveApps};
ghost use Rattle.ns_ram.specs.Reads.{total_bytes};
ghost use Rattle.resumed_calls.specs.Deciding.{CanDecide};
ghost use Rattle.kernel_entry.specs.Entering.{Fit, HasBox, HasMoreRoom, Prepares};

use crate::carrying::total_bytes;
use crate::deciding::{EntryDecision, decide};
use crate::visitor::make_room;
use base::NoMemory;
use event_log::Log;
use kernel_state::{Blanks, EnterRefusal, Parts};
use ns_ram::{Lane, Reads};
use smc_abi::Regs;
use std::alloc::Global;

/// An entry that is prepared: what was decided, and what was read for that.
#[derive(Drop)]
pub struct Prepared {
    pub decision: EntryDecision,
    pub reads: Reads,
}

/// Decides an entry, and makes room for it, for its call and for the exits of all processors. All memory of an entry is
/// taken here.
pub(crate) fn prepare_parts(
    alloc: Global,
    parts: &mut Parts,
    regs: &Regs,
    lane: &Lane,
) -> Result<Prepared, EnterRefusal>
    requires few { copied_bytes parts.old.journal.events ≤ parts.old.setup.terms.most }
    requires call { ∥ CanDecide parts.old.slots regs.now.a ∥₁ }
    requires pages { HasFreePages parts.old.setup parts.old.tables }
    requires apps { HaveApps (booted_of_setup parts.old.setup) (tables_of parts.old.tables) }
    ensures prepares { Prepares parts.new regs.now.a lane.now result }
    ensures room { HasMoreRoom parts.old parts.new }
{
    let Ok(()) = make_room(&mut parts.journal, parts.setup.cpus) else {
        return Err(EnterRefusal::Memory);
    };
    let mut reads = Reads::new(alloc);
    let Ok(decision) = decide(alloc, parts, regs, lane, &mut reads) else {
        return Err(EnterRefusal::Memory);
    };
    make_ready(alloc, parts, &decision, &reads)?;
    Ok(Prepared { decision, reads })
}

/// Makes a box for a call that begins, where none is kept, and sees that what the entry has read is not too much.
fn make_ready(
    alloc: Global,
    parts: &mut Parts,
    decision: &EntryDecision,
    reads: &Reads,
) -> Result<(), EnterRefusal>
    requires { copied_bytes parts.old.journal.events ≤ parts.old.setup.terms.most }
    ensures fit { Fit parts.old.setup.terms.most (copied_bytes parts.old.journal.events) (total_bytes reads.now) result }
    ensures boxed { OnOk result (HasBox parts.new.blanks decision.now) }
    ensures stays { parts.new ≡ record parts.old { blanks = parts.new.blanks } }
{
    let Ok(()) = make_box(alloc, &mut parts.blanks, decision) else {
        return Err(EnterRefusal::Memory);
    };
    fit(&parts.journal, parts.setup.terms.most, reads)
}

/// Makes a box where a call begins and none is kept.
fn make_box(alloc: Global, blanks: &mut Blanks, decision: &EntryDecision) -> Result<(), NoMemory>
    ensures { OnOk result (HasBox blanks.new decision.now) }
{
    match decision {
        EntryDecision::Begins(..) => blanks.make_one(alloc),
        EntryDecision::Answers(_) | EntryDecision::GoesOn(_) => Ok(()),
    }
}

/// What the entry has read, beside what all entries before it have, is at most so much.
#[inline(always)]
pub(crate) fn fit(journal: &Log, most: u64, reads: &Reads) -> Result<(), EnterRefusal>
    requires { copied_bytes journal.now.events ≤ most }
    ensures { Fit most (copied_bytes journal.now.events) (total_bytes reads.now) result }
{
    let Some(more) = total_bytes(reads) else {
        return Err(EnterRefusal::Memory);
    };
    let copied = journal.copied();
    if more > most - copied {
        return Err(EnterRefusal::Full { copied, more });
    }
    Ok(())
}
