//! A call that is resumed.
ghost use Rattle.std.specs.Prelude.{◌≡◌, ◌+◌, ◌<◌, ◌^◌, Some, length, slice_get, slice_set};
ghost use Rattle.std.specs.Option.{option_map};
ghost use Rattle.event_journal.specs.Journal.{copied_bytes};
ghost use Rattle.kernel_model.specs.Argument.{thread_in};
ghost use Rattle.kernel_model.specs.Decision.{Takes, works_on};
ghost use Rattle.kernel_model.specs.Kernel.{Kernel, PendingCall};
ghost use Rattle.kernel_model.specs.Resume.{call_resumed_by};
ghost use Rattle.kernel_state.specs.StandsFor.{StandsFor};
ghost use Rattle.kernel_state.specs.Tables.{HasFreePages};
ghost use Rattle.kernel_state.specs.Work.{IsCarriedAs};
ghost use Rattle.kernel_state.specs.declared.cancellation.Cancellation.{Cancellation as AnyCancellation};
ghost use Rattle.ns_ram.specs.Reads.{total_bytes};
ghost use Rattle.resumed_calls.specs.Deciding.{IsHandedOut};
ghost use Rattle.thread_slots.specs.declared.slot.Slot.TheVariants.{Active};
ghost use Rattle.kernel_entry.specs.Resuming.{CanGoOn, HasGoneOn, IsSuspended, goes_on_as};
ghost use Rattle.kernel_entry.specs.Visiting.{HasComeIn, StandsAfter};

use crate::carrying::carried_call;
use crate::visitor::{Visitor, let_in};
use frame_pool::Pages;
use kernel_state::{Cancellation, Carried, Errand, Parts};
use ns_ram::Reads;
use resumed_calls::{Decided, Resumed, resume_call};
use rpc_cont::Cont;
use smc_abi::Regs;
use thread_slots::Slots;

/// Hands the call of that slot out, which is active on this processor then.
fn hand_out(slots: &mut Slots<Box<Cont<Pages>>>, regs: &Regs, cpu: u8) -> Box<Cont<Pages>>
    requires { IsSuspended slots.old regs.now.a }
    ensures cont { IsHandedOut slots.old regs.now.a result }
    ensures after { slots.new ≡ slice_set slots.old (thread_in regs.now.a) (Active cpu) }
{
    match slots.resume(regs.a[3], regs.a[7], cpu) {
        Ok(cont) => cont,
        Err(_refusal) => unreachable!(),
    }
}

/// The call of the slot was cancelled.
fn is_marked(besides: &[Cancellation], slot: u8) -> bool
    requires { slot < length besides.now }
    ensures { option_map (λ (beside : AnyCancellation). beside.marked) (slice_get besides.now slot) ≡ Some result }
{
    besides[usize::from(slot)].marked
}

/// Resumes the call that the registers name: it is out with this processor, and has come as far as its resume takes
/// it.
#[inline(always)]
fn go_on(parts: &mut Parts, regs: &Regs, cpu: u8, decided: Decided) -> Box<Cont<Pages>>
    requires { CanGoOn parts.old regs.now.a decided }
    ensures slots { parts.new.slots ≡ slice_set parts.old.slots (thread_in regs.now.a) (Active cpu) }
    ensures call { HasGoneOn parts.old regs.now.a decided parts.new.tables result.value }
    ensures pages { HasFreePages parts.old.setup parts.new.tables }
    ensures stays { parts.new ≡ record parts.old { slots = parts.new.slots; tables = parts.new.tables } }
{
    let Decided { slot, given, app } = decided;
    let marked = is_marked(parts.cancellations.as_slice(), slot);
    let mut cont = hand_out(&mut parts.slots, regs, cpu);
    let resumed = Resumed {
        slot,
        marked,
        given,
        app,
    };
    resume_call(&parts.setup, &mut parts.tables, &mut cont, resumed);
    cont
}

/// Lets a processor in for the call that its registers name, which goes on with this. The parts stand for the kernel
/// after it, and the processor carries what the call has come to.
#[inline(always)]
pub fn enter_resumed(parts: &mut Parts, visitor: Visitor, decided: Decided, reads: Reads) -> Carried
    requires cpu { visitor.cpu < length parts.old.processors.items }
    requires room { parts.old.setup.cpus < parts.old.journal.spare }
    requires few { copied_bytes parts.old.journal.events + total_bytes reads < 2 ^ 64 }
    requires goes_on { CanGoOn parts.old visitor.regs.a decided }
    ensures come { HasComeIn parts.old parts.new visitor reads }
    ensures stands { (kernel : Kernel) (call : PendingCall) → call_resumed_by kernel.slots visitor.regs.a ≡ Some call
        → StandsAfter parts.old parts.new visitor kernel
        (Takes (thread_in visitor.regs.a) (works_on (goes_on_as parts.old visitor.regs.a decided call))) }
    ensures carries { (kernel : Kernel) (call : PendingCall) → StandsFor parts.old kernel
        → call_resumed_by kernel.slots visitor.regs.a ≡ Some call
        → (let progress = goes_on_as parts.old visitor.regs.a decided call in
        IsCarriedAs result progress.call progress.call.phase) }
{
    let slot = decided.slot;
    let cont = go_on(parts, &visitor.regs, visitor.cpu, decided);
    let_in(parts, visitor, Errand::InSlot(slot), reads);
    carried_call(cont)
}
