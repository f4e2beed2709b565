//! A new call that comes in.
ghost use Rattle.std.specs.Prelude.{◌≡◌, ◌+◌, ◌<◌, ◌^◌, Some, length};
ghost use Rattle.event_journal.specs.Journal.{copied_bytes};
ghost use Rattle.kernel_model.specs.Decision.{Takes};
ghost use Rattle.kernel_model.specs.Kernel.{Kernel};
ghost use Rattle.kernel_state.specs.Setup.{booted_of_setup};
ghost use Rattle.kernel_state.specs.Tables.{tables_of};
ghost use Rattle.kernel_state.specs.Work.{IsCarriedAs};
ghost use Rattle.new_calls.specs.Applying.{CanApply};
ghost use Rattle.new_calls.specs.Deciding.{call_with, taken_of};
ghost use Rattle.ns_ram.specs.Reads.{total_bytes};
ghost use Rattle.thread_slots.specs.Slots.{lowest_free};
ghost use Rattle.kernel_entry.specs.Applying.{CanTake, is_cancel};
ghost use Rattle.kernel_entry.specs.Visiting.{HasComeIn, StandsAfter};

use crate::carrying::carried_call;
use crate::deciding::PlannedCall;
use crate::plans::apply;
use crate::taking::take_slot;
use crate::visitor::{Visitor, let_in};
use kernel_state::{Cancellation, Carried, Errand, Parts};
use new_calls::{Entered, Plan};
use ns_ram::Reads;
use std::alloc::Global;

/// The plan is one to cancel.
fn is_cancel(plan: &Plan) -> bool
    ensures { result ≡ is_cancel plan.now }
{
    matches!(plan, Plan::Cancels)
}

/// Lets a processor in for a new call, which takes the lowest free slot and fills a box. The parts stand for the
/// kernel after it, and the processor carries the call that its slot works on.
#[inline(never)]
pub fn enter_new(
    alloc: Global,
    parts: &mut Parts,
    visitor: Visitor,
    call: Box<PlannedCall>,
    reads: Reads,
) -> Carried
    requires cpu { visitor.cpu < length parts.old.processors.items }
    requires room { parts.old.setup.cpus < parts.old.journal.spare }
    requires few { copied_bytes parts.old.journal.events + total_bytes reads < 2 ^ 64 }
    requires slot { lowest_free parts.old.slots ≡ Some call.value.entered.slot }
    requires beside { call.value.entered.slot < length parts.old.cancellations.items }
    requires plan { CanTake parts.old.tables call.value.entered call.value.plan }
    requires blank { 0 < parts.old.blanks.kept }
    ensures come { HasComeIn parts.old parts.new visitor reads }
    ensures stands { CanApply (call_with (booted_of_setup parts.old.setup) (tables_of parts.old.tables) call.value.entered) call.value.plan
        → (kernel : Kernel) → StandsAfter parts.old parts.new visitor kernel (Takes call.value.entered.slot
        (taken_of (call_with (booted_of_setup parts.old.setup) (tables_of parts.old.tables) call.value.entered) call.value.plan)) }
    ensures carries { CanApply (call_with (booted_of_setup parts.old.setup) (tables_of parts.old.tables) call.value.entered) call.value.plan
        → (let taken = taken_of (call_with (booted_of_setup parts.old.setup) (tables_of parts.old.tables) call.value.entered) call.value.plan in
        IsCarriedAs result taken.call taken.call.phase) }
{
    let PlannedCall { entered, plan } = Box::into_inner(call);
    enter_with(alloc, parts, visitor, entered, plan, reads)
}

/// The same, of a call that brings this along, for this plan.
fn enter_with(
    alloc: Global,
    parts: &mut Parts,
    visitor: Visitor,
    entered: Entered,
    plan: Plan,
    reads: Reads,
) -> Carried
    requires cpu { visitor.cpu < length parts.old.processors.items }
    requires room { parts.old.setup.cpus < parts.old.journal.spare }
    requires few { copied_bytes parts.old.journal.events + total_bytes reads < 2 ^ 64 }
    requires slot { lowest_free parts.old.slots ≡ Some entered.slot }
    requires beside { entered.slot < length parts.old.cancellations.items }
    requires plan { CanTake parts.old.tables entered plan }
    requires blank { 0 < parts.old.blanks.kept }
    ensures come { HasComeIn parts.old parts.new visitor reads }
    ensures stands { CanApply (call_with (booted_of_setup parts.old.setup) (tables_of parts.old.tables) entered) plan
        → (kernel : Kernel) → StandsAfter parts.old parts.new visitor kernel (Takes entered.slot
        (taken_of (call_with (booted_of_setup parts.old.setup) (tables_of parts.old.tables) entered) plan)) }
    ensures carries { CanApply (call_with (booted_of_setup parts.old.setup) (tables_of parts.old.tables) entered) plan
        → (let taken = taken_of (call_with (booted_of_setup parts.old.setup) (tables_of parts.old.tables) entered) plan in
        IsCarriedAs result taken.call taken.call.phase) }
{
    let slot = entered.slot;
    let cancels = is_cancel(&plan);
    let mut cont = parts.blanks.take(parts.setup.key);
    apply(alloc, &mut parts.tables, &entered, plan, &mut cont);
    let beside = Cancellation {
        session: cont.session,
        cancel_id: entered.head.cancel_id,
        marked: false,
    };
    take_slot(parts, visitor.cpu, slot, beside, cancels);
    let_in(parts, visitor, Errand::InSlot(slot), reads);
    carried_call(cont)
}
