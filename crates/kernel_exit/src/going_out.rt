//! A processor goes out.
ghost use Rattle.std.specs.Prelude.{◌≡◌, ℕ, ◌-◌, ◌<◌, ◌≤◌, ◌^◌, [], ◌∷◌, ◌++◌, Some, IsSome, IsSomeAnd, length, slice_get, slice_set};
ghost use Rattle.event_journal.specs.Journal.{copied_bytes};
ghost use Rattle.event_journal.specs.declared.event.Event.TheVariants.{Exit};
ghost use Rattle.kernel_model.specs.Exit.{progress_in};
ghost use Rattle.kernel_model.specs.Kernel.{PendingCall};
ghost use Rattle.kernel_state.specs.Leaving.{CanLeave, HasLeft};
ghost use Rattle.kernel_state.specs.Setup.{booted_of_setup};
ghost use Rattle.kernel_state.specs.Tables.{HasFreePages, tables_of};
ghost use Rattle.kernel_exit.specs.Ending.{HasComeTo};
ghost use Rattle.kernel_exit.specs.GoingOut.{CanCome, CanExitWith, CanGoFrom, HasExitedWith, HasGoneFrom, IsCarriedOut, IsInside, IsInsideFor, call_carried};

use crate::progress::{after_grant, after_rest};
use crate::telling::{answer_of, slot_left, tables_left, tell};
use event_journal::Event;
use frame_pool::Pages;
use kernel_state::{Carried, Core, Errand, Leaving, Parts, Processor, Ran, Setup, Tables};
use ns_ram::Lane;
use rpc_cont::{Cont, ContStop};
use smc_abi::{Answer, Regs, encode_answer};

/// The registers with which a processor came in, and what for.
fn inside_with(processors: &[Processor], cpu: u8) -> (Regs, Errand)
    requires { IsSomeAnd (slice_get processors.now cpu) IsInside }
    ensures { IsSomeAnd (slice_get processors.now cpu) (IsInsideFor result.0 result.1) }
{
    match &processors[usize::from(cpu)] {
        Processor::Inside { regs, errand, .. } => (*regs, *errand),
        Processor::Outside => unreachable!(),
    }
}

/// The call that a processor carries.
fn call_carried(call: Carried) -> Box<Cont<Pages>>
    requires { IsSome (call_carried call) }
    ensures { call_carried call ≡ Some result }
{
    match call {
        Carried::Resting(cont) | Carried::Running(cont) => cont,
        Carried::Nothing => unreachable!(),
    }
}

/// What the call comes to, by why it stopped, if it ran, with the tables as they then are.
fn comes_to(setup: &Setup, tables: &mut Tables, cont: &mut Cont<Pages>, why: Option<ContStop>)
    requires can { CanCome (booted_of_setup setup.now) (tables_of tables.old) cont.old why }
    requires pages { HasFreePages setup.now tables.old }
    ensures comes { (call : PendingCall) (steps : ℕ) → IsCarriedOut cont.old why call steps
        → IsSomeAnd (progress_in (tables_of tables.old) call steps call.phase) (λ progress. HasComeTo progress cont.new tables.new) }
    ensures pages { HasFreePages setup.now tables.new }
{
    match why {
        Some(why) => after_grant(setup, tables, cont, why),
        None => after_rest(setup, tables, cont),
    }
}

/// A processor goes out from what the call of a slot comes to: that is told, and stays in the slot until it has finished.
fn goes_out_from(
    parts: &mut Parts,
    slot: u8,
    mut cont: Box<Cont<Pages>>,
    why: Option<ContStop>,
    lane: &mut Lane,
) -> Answer
    requires { CanGoFrom parts.old slot cont.value why }
    ensures gone { HasGoneFrom parts.old parts.new slot cont.value why lane.old lane.new result }
    ensures stays { parts.new ≡ record parts.old { slots = parts.new.slots; tables = parts.new.tables; blanks = parts.new.blanks } }
{
    comes_to(&parts.setup, &mut parts.tables, &mut cont, why);
    let leaving = Leaving::of(u32::from(slot), &cont);
    tell(lane, &cont, leaving);
    slot_left(&mut parts.slots, &mut parts.blanks, slot, cont, leaving);
    tables_left(&mut parts.tables, slot, leaving);
    answer_of(slot, leaving)
}

/// A processor goes out, by what it came in for: an answer that was fixed then, or the call of a slot.
fn exit_with(
    parts: &mut Parts,
    errand: Errand,
    call: Carried,
    why: Option<ContStop>,
    lane: &mut Lane,
) -> Answer
    requires { CanExitWith parts.old errand call why }
    ensures exited { HasExitedWith parts.old parts.new errand call why lane.old lane.new result }
    ensures stays { parts.new ≡ record parts.old { slots = parts.new.slots; tables = parts.new.tables; blanks = parts.new.blanks } }
{
    match errand {
        Errand::Fixed(answer) => answer,
        Errand::InSlot(slot) => goes_out_from(parts, slot, call_carried(call), why, lane),
    }
}

/// The processor is outside, and its exit stands in the room that its entry has reserved.
fn goes_out(parts: &mut Parts, cpu: u8, told: Regs)
    requires there { cpu < length parts.old.processors.items }
    requires room { 0 < parts.old.journal.spare }
    requires few { copied_bytes parts.old.journal.events ≤ 2 ^ 63 }
    ensures processors { parts.new.processors.items ≡ slice_set parts.old.processors.items cpu Processor.Outside }
    ensures journal { parts.new.journal ≡ record parts.old.journal {
      events = parts.old.journal.events ++ Exit cpu told ∷ [];
      spare = parts.old.journal.spare - 1;
    } }
    ensures stays { parts.new ≡ record parts.old { processors = parts.new.processors; journal = parts.new.journal } }
{
    parts.processors[usize::from(cpu)] = Processor::Outside;
    parts.journal.push(Event::Exit { cpu, regs: told });
}

/// A processor goes out with the call that it carries, behind its granted steps: it is answered, and what it has to say is
/// written. Takes no memory.
pub fn leave(core: &mut Core, ran: Ran, lane: &mut Lane) -> Regs
    requires { CanLeave core.old ran }
    ensures { HasLeft core.old core.new ran lane.old lane.new result }
{
    let Ran {
        cpu,
        call,
        stop,
        ..
    } = ran;
    let (regs, errand) = inside_with(core.parts.processors.as_slice(), cpu);
    let answer = exit_with(&mut core.parts, errand, call, stop, lane);
    let told = encode_answer(&answer, &regs);
    goes_out(&mut core.parts, cpu, told);
    told
}
