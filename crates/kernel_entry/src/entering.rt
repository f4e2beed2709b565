//! A processor comes in.
ghost use Rattle.std.specs.Prelude.{◌≡◌, ℕ, ◌+◌, ◌<◌, ◌^◌, List, length};
ghost use Rattle.event_journal.specs.Journal.{copied_bytes};
ghost use Rattle.kernel_model.specs.Kernel.{Kernel};
ghost use Rattle.kernel_state.specs.Entering.{CanEnter, Enters, HasEntered};
ghost use Rattle.kernel_state.specs.StandsFor.{StandsFor};
ghost use Rattle.ns_ram.specs.Reads.{total_bytes};
ghost use Rattle.kernel_entry.specs.Deciding.{decision_as};
ghost use Rattle.kernel_entry.specs.Entering.{CanFollow, HasMoreRoom, IsCarriedBy, IsPrepared, PreparesEntry, WasPrepared};
ghost use Rattle.kernel_entry.specs.Visiting.{HasComeIn, StandsAfter, coming_of};

use crate::answering::enter_at_once;
use crate::beginning::enter_new;
use crate::deciding::{EntryDecision, code};
use crate::fixed::enter_fixed;
use crate::preparing::{Prepared, prepare_parts};
use crate::resuming::enter_resumed;
use crate::returning::enter_returning;
use crate::visitor::Visitor;
use event_log::Log;
use kernel_state::{Carried, Core, EnterRefusal, Parts, Work};
use ns_ram::{Lane, Reads};
use smc_abi::{Call, UNKNOWN_FUNCTION, decode_call, fast_answer};
use std::alloc::Global;

/// The place that the next event gets.
pub(crate) fn next_place(journal: &Log) -> u64
    ensures place { result ≡ length journal.now.events }
    ensures fits { length journal.now.events < 2 ^ 64 }
{
    journal.len()
}

/// Does what was decided. The parts stand for the kernel after that, and the processor carries the call of its slot, if it
/// has one.
#[inline(always)]
fn follow(
    alloc: Global,
    parts: &mut Parts,
    visitor: Visitor,
    decision: EntryDecision,
    reads: Reads,
) -> Carried
    requires cpu { visitor.cpu < length parts.old.processors.items }
    requires room { parts.old.setup.cpus < parts.old.journal.spare }
    requires few { copied_bytes parts.old.journal.events + total_bytes reads < 2 ^ 64 }
    requires follows { CanFollow parts.old visitor.regs.a decision }
    ensures come { HasComeIn parts.old parts.new visitor reads }
    ensures stands { (kernel : Kernel)
        → StandsAfter parts.old parts.new visitor kernel (decision_as parts.old kernel visitor.regs.a decision) }
    ensures carries { (kernel : Kernel) → StandsFor parts.old kernel
        → IsCarriedBy result (decision_as parts.old kernel visitor.regs.a decision) }
{
    match decision {
        EntryDecision::Answers(answer) => {
            enter_fixed(parts, visitor, answer, reads);
            Carried::Nothing
        }
        EntryDecision::Begins(call) => enter_new(alloc, parts, visitor, call, reads),
        EntryDecision::GoesOn(decided) => enter_resumed(parts, visitor, decided, reads),
    }
}

/// Prepares an entry: what the visitor's registers ask for is decided by the core and the lane, and all memory of the entry
/// is taken. The core stays as it is, but has more room. Where the entry is refused the core is as it was.
pub fn prepare(
    alloc: Global,
    core: &mut Core,
    visitor: &Visitor,
    lane: &Lane,
) -> Result<Prepared, EnterRefusal>
    ensures prepares { PreparesEntry core.old core.new (coming_of visitor.now) lane.now result }
    ensures room { HasMoreRoom core.old.parts core.new.parts }
{
    prepare_parts(alloc, &mut core.parts, &visitor.regs, lane)
}

/// Lets a processor in for what was prepared for its registers. Takes no memory, and can't fail.
pub fn admit(alloc: Global, core: &mut Core, visitor: Visitor, prepared: Prepared) -> Work
    requires can { CanEnter core.old (coming_of visitor) }
    requires prepared { WasPrepared core.old.parts visitor.regs.a prepared }
    ensures { (lane : List ℕ) → IsPrepared core.old.parts visitor.regs.a lane prepared
        → HasEntered core.old core.new (coming_of visitor) lane result }
{
    let Prepared { decision, reads } = prepared;
    let entry_at = next_place(&core.parts.journal);
    let call = follow(alloc, &mut core.parts, visitor, decision, reads);
    let Visitor { cpu, steps, .. } = visitor;
    Work {
        cpu,
        entry_at,
        steps,
        call,
    }
}

/// A processor comes in, by what its registers ask for. Where it is refused the core is as it was.
pub fn enter(
    alloc: Global,
    core: &mut Core,
    visitor: Visitor,
    lane: &Lane,
) -> Result<Work, EnterRefusal>
    requires { CanEnter core.old (coming_of visitor) }
    ensures { Enters core.old core.new (coming_of visitor) lane.now result }
{
    match decode_call(&visitor.regs) {
        Call::Fast(call) => {
            let answer = fast_answer(call, &visitor.regs, core.parts.setup.threads);
            enter_at_once(alloc, core, visitor, answer)
        }
        Call::WithArg | Call::WithRpcArg | Call::WithRegdArg => enter_prepared(
            alloc, core, visitor, lane,
        ),
        Call::Resume => enter_returning(alloc, core, visitor, lane),
        Call::Unknown => enter_at_once(alloc, core, visitor, code(UNKNOWN_FUNCTION)),
    }
}

/// Lets a processor in by a decision of any kind: prepared, and then admitted. It is built into no other entry, since that
/// would clear its places, too.
#[inline(never)]
fn enter_prepared(
    alloc: Global,
    core: &mut Core,
    visitor: Visitor,
    lane: &Lane,
) -> Result<Work, EnterRefusal>
    requires { CanEnter core.old (coming_of visitor) }
    ensures { Enters core.old core.new (coming_of visitor) lane.now result }
{
    let prepared = prepare(alloc, core, &visitor, lane)?;
    Ok(admit(alloc, core, visitor, prepared))
}
