//! The tests of every call.
ghost use Rattle.std.specs.Prelude.{◌≡◌, ◌<◌, IfOk, IfSome, IsSome, Some, length};
ghost use Rattle.std.specs.Option.{ForSome};
ghost use Rattle.base.specs.NumberMap.{get};
ghost use Rattle.kernel_model.specs.Argument.{argument_at, client_in};
ghost use Rattle.kernel_model.specs.Decision.{decided_by, taken_by};
ghost use Rattle.kernel_model.specs.Kernel.{Tables};
ghost use Rattle.kernel_model.specs.NewCall.{new_call_with};
ghost use Rattle.kernel_state.specs.Setup.{booted_of_setup};
ghost use Rattle.kernel_state.specs.Tables.{HasFreePages, tables_of};
ghost use Rattle.msg_args.specs.Reading.{head_at};
ghost use Rattle.ns_ram.specs.Reader.{over_lane};
ghost use Rattle.thread_slots.specs.Slots.{lowest_free};
ghost use Rattle.new_calls.specs.Applying.{CanApply, HaveApps};
ghost use Rattle.new_calls.specs.Commands.{CanTake, ComesIn, IsInSlot, decision_of, tests_of};
ghost use Rattle.new_calls.specs.Deciding.{Decides, call_of, taken_of};

use crate::call::CallAtEntry;
use crate::command::{Command, command_of};
use crate::decided::{Decided, Found};
use crate::entered::Entered;
use crate::halt::Halt;
use crate::located::Located;
use crate::plan::Plan;
use crate::refused::Refused;
use base::NoMemory;
use frame_pool::Pages;
use msg_args::{HEAD_LEN, MsgHead, read_head};
use ns_ram::{Lane, Reads};
use rpc_cont::Cont;
use shm_registry::Registry;
use smc_abi::{Answer, EBADADDR, EBADCMD, ETHREAD_LIMIT, Regs};
use std::alloc::Global;
use thread_slots::{Slot, Slots};

/// The lowest free slot, if one is free.
pub fn lowest_free(slots: &Slots<Box<Cont<Pages>>>) -> Option<u8>
    ensures slot { result ≡ lowest_free slots.now }
    ensures few { IfSome result (λ slot. slot < 16) }
{
    let _count = slots.count();
    let slot = first_free(slots.as_slice())?;
    Some(slot as u8)
}

/// The number of the first that is free.
fn first_free(slots: &[Slot<Box<Cont<Pages>>>]) -> Option<usize>
    ensures { result ≡ lowest_free slots.now }
{
    slots.iter().position(|slot| slot.is_free())
}

/// The tests of every call, and then those of its command.
pub fn new_call(
    alloc: Global,
    found: &Found<'_>,
    regs: &Regs,
    lane: &Lane,
    reads: &mut Reads,
) -> Result<Decided, NoMemory>
    requires free { IfSome found.now.free (λ slot. slot < 16) }
    requires pages { HasFreePages found.now.setup.now found.now.tables.now }
    requires apps { HaveApps (booted_of_setup found.now.setup.now) (tables_of found.now.tables.now) }
    ensures decides { IfOk result (λ decided.
        over_lane (decided_by
        (new_call_with (booted_of_setup found.now.setup.now) (tables_of found.now.tables.now) regs.now.a found.now.free))
        lane.now reads.old
        ≡ Some (decision_of (booted_of_setup found.now.setup.now) (tables_of found.now.tables.now) decided, reads.new)) }
    ensures slot { IfOk result (IsInSlot found.now.free) }
    ensures can_apply { IfOk result (CanTake (booted_of_setup found.now.setup.now) (tables_of found.now.tables.now)) }
{
    let Some(slot) = found.free else {
        return Ok(Decided::Answers(code(ETHREAD_LIMIT)));
    };
    let (entered, command) = match come_in(alloc, slot, &found.tables.registry, regs, lane, reads) {
        Ok(came) => came,
        Err(Refused::Answer(answer)) => return Ok(Decided::Answers(answer)),
        Err(Refused::Memory) => return Err(NoMemory),
    };
    let call = CallAtEntry {
        setup: found.setup,
        tables: found.tables,
        entered,
    };
    let plan = call.plan(command, alloc, lane, reads)?;
    let CallAtEntry { entered, .. } = call;
    Ok(Decided::Takes(entered, plan))
}

/// The tests of every call behind that of a free slot: what it brings along, and its command.
fn come_in(
    alloc: Global,
    slot: u8,
    registry: &Registry,
    regs: &Regs,
    lane: &Lane,
    reads: &mut Reads,
) -> Result<(Entered, Command), Refused>
    requires { slot < 16 }
    ensures comes { (tables : Tables) → tables.registered ≡ registry.now
        → ComesIn tables regs.now.a slot lane.now reads.old reads.new result }
    ensures slot { IfOk result (λ came. came.0.slot ≡ slot) }
    ensures kept { IfOk result (λ came. ForSome came.0.cookie (λ cookie. IsSome (get registry.now.buffers cookie))) }
{
    let Some(at) = Located::of(registry, regs) else {
        return Err(Refused::Answer(code(EBADADDR)));
    };
    if !at.has_head() {
        return Err(Refused::Answer(code(EBADADDR)));
    }
    let bytes = reads.take_bytes(alloc, lane, at.addr, HEAD_LEN)?;
    let head = head_in(bytes);
    if !at.has_argument(&head) {
        return Err(Refused::Answer(code(EBADADDR)));
    }
    let Some(command) = command_of(head.cmd) else {
        return Err(Refused::Answer(code(EBADCMD)));
    };
    let entered = Entered {
        slot,
        client: client_in(regs),
        arg: at.addr,
        area: at.area(&head),
        cookie: at.cookie(),
        head,
    };
    Ok((entered, command))
}

impl CallAtEntry<'_> {
    /// What the slot is taken for, by a test that fails or at the end.
    fn plan(
        &self,
        command: Command,
        alloc: Global,
        lane: &Lane,
        reads: &mut Reads,
    ) -> Result<Plan, NoMemory>
        requires pages { HasFreePages self.now.setup.now self.now.tables.now }
        requires apps { HaveApps (booted_of_setup self.now.setup.now) (tables_of self.now.tables.now) }
        ensures decides { IfOk result (λ plan.
            over_lane (taken_by (tests_of command (call_of self.now))) lane.now reads.old
            ≡ Some (taken_of (call_of self.now) plan, reads.new)) }
        ensures can_apply { IfOk result (CanApply (call_of self.now)) }
    {
        match self.command(command, alloc, lane, reads) {
            Ok(plan) => Ok(plan),
            Err(Halt::Settled(settled)) => Ok(Plan::Settles(settled)),
            Err(Halt::Memory) => Err(NoMemory),
        }
    }

    /// The tests of its command, and what that begins or changes.
    fn command(
        &self,
        command: Command,
        alloc: Global,
        lane: &Lane,
        reads: &mut Reads,
    ) -> Result<Plan, Halt>
        requires pages { HasFreePages self.now.setup.now self.now.tables.now }
        requires apps { HaveApps (booted_of_setup self.now.setup.now) (tables_of self.now.tables.now) }
        ensures decides { Decides self.now (tests_of command) lane.now reads.old reads.new result }
        ensures can_apply { IfOk result (CanApply (call_of self.now)) }
    {
        match command {
            Command::OpenSession => self.open_session(alloc, lane, reads),
            Command::InvokeCommand => self.invoke_command(alloc, lane, reads),
            Command::CloseSession => self.close_session(),
            Command::Cancel => self.cancel_calls(),
            Command::RegisterMemory => self.register_memory(alloc, lane, reads),
            Command::UnregisterMemory => self.unregister_memory(alloc, lane, reads),
        }
    }
}

/// An answer of this code alone.
fn code(code: u32) -> Answer
    ensures { result ≡ Answer.Words code 0 0 0 }
{
    Answer::Words(code, 0, 0, 0)
}

/// The address of the argument, or the cookie that names it, in a1 and a2.
pub(crate) fn argument_at(regs: &Regs) -> u64
    ensures { result ≡ argument_at regs.now.a }
{
    u64::from(regs.a[1]) * (1 << 32) + u64::from(regs.a[2])
}

/// Who calls.
fn client_in(regs: &Regs) -> u32
    ensures { result ≡ client_in regs.now.a }
{
    regs.a[7]
}

/// The head in the 32 bytes.
fn head_in(bytes: &[u8]) -> MsgHead
    requires { length bytes.now ≡ 32 }
    ensures { result ≡ head_at bytes.now }
{
    let mut head = [0; 32];
    head.copy_from_slice(bytes);
    read_head(&head)
}
