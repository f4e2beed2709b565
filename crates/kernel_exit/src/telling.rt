//! What is told of a call as it goes out: the answer, what is written, and what its slot is left with.
ghost use Rattle.std.specs.Prelude.{◌≡◌, ℕ, List, [], ◌∷◌};
ghost use Rattle.std.specs.List.{AllByRecursion};
ghost use Rattle.kernel_state.specs.CallLeaving.{leaving_as, request_of};
ghost use Rattle.kernel_model.specs.Exit.{answer_of, output_writes, result_writes, session_writes, slot_left, tables_left, word32, writes_of};
ghost use Rattle.kernel_model.specs.Kernel.{PendingCall};
ghost use Rattle.kernel_state.specs.Calls.{IsCall};
ghost use Rattle.kernel_state.specs.StandsFor.{IsBeside};
ghost use Rattle.kernel_state.specs.Tables.{tables_of};
ghost use Rattle.kernel_state.specs.declared.cancellation.Cancellation.{Cancellation as AnyCancellation};
ghost use Rattle.ns_ram.specs.Lane.{IsInRam};
ghost use Rattle.ns_ram.specs.Writes.{lane_after};
ghost use Rattle.param_copy.specs.Places.{IsWritable};
ghost use Rattle.rpc_cont.specs.Conts.{kept_params};
ghost use Rattle.rpc_cont.specs.declared.cont.Cont.{Cont as AnyCont};
ghost use Rattle.rpc_msgs.specs.Place.{writes_at};
ghost use Rattle.thread_slots.specs.Slots.{IsActiveAt};
ghost use Rattle.kernel_exit.specs.Telling.{CanBeAsked, CanBeTold, HasRoomForResult, HoldsNow, boxes_left};

use frame_pool::Pages;
use job_model::CallKind;
use kernel_state::{Blanks, Leaving, Tables, Wanted};
use msg_args::{origin_at, ret_at, session_at};
use ns_ram::Lane;
use param_copy::copy_out;
use rpc_cont::Cont;
use rpc_msgs::{RequestPlace, Rpc, put_request_at};
use smc_abi::{Answer, OK};
use ta_params::CopiedParams;
use ta_params::codes::{TEE_ORIGIN_TRUSTED_APP, TEE_SUCCESS};
use thread_slots::Slots;

/// The bytes of the buffer that a call asks for.
const BUFFER_BYTES: u32 = 4096;

/// The answer, of the call of this slot.
pub fn answer_of(slot: u8, leaving: Leaving) -> Answer
    ensures { (cont : AnyCont (List ℕ)) → result ≡ answer_of slot (leaving_as cont leaving) }
{
    match leaving {
        Leaving::Interrupted => Answer::Interrupt { thread: slot },
        Leaving::WantsBuffer => Answer::Alloc {
            size: BUFFER_BYTES,
            thread: slot,
        },
        Leaving::Requests { place, .. } => Answer::Cmd {
            cookie: place.cookie(),
            thread: slot,
        },
        Leaving::FreesBuffer(buffer) => Answer::Free {
            cookie: buffer.cookie,
            thread: slot,
        },
        Leaving::Finishes => Answer::Words(OK, 0, 0, 0),
    }
}

/// Writes a number of four bytes, the lowest first.
fn put_word(lane: &mut Lane, addr: u64, number: u32)
    requires { IsInRam addr 4 }
    ensures { lane.new ≡ lane_after lane.old (word32 addr number ∷ []) }
{
    lane.write(addr, &number.to_le_bytes());
}

/// Writes what a call asks for at this place.
fn put_wanted(lane: &mut Lane, cont: &Cont<Pages>, place: &RequestPlace, wanted: Wanted)
    requires { CanBeAsked cont.now.request place.now wanted }
    ensures { let request = request_of cont.now.request wanted in
        lane.new ≡ lane_after lane.old (writes_at place.now request.wanted request.payload) }
{
    match wanted {
        Wanted::Asked => {
            let Some(asked) = &cont.request else {
                unreachable!();
            };
            put_request_at(lane, place, &asked.rpc, asked.payload.bytes());
        }
        Wanted::Sleep(slot) => put_request_at(lane, place, &Rpc::Sleep(slot), &[]),
        Wanted::Wake(slot) => put_request_at(lane, place, &Rpc::Wake(slot), &[]),
    }
}

/// Writes the parameters back, where the application returned the result.
fn put_outputs(lane: &mut Lane, cont: &Cont<Pages>)
    requires { AllByRecursion (IsWritable cont.now.arg) cont.now.places.items }
    ensures { (call : PendingCall) → cont.now.arg ≡ call.arg → cont.now.places.items ≡ call.places
        → lane.new ≡ lane_after lane.old (output_writes call cont.now.result (kept_params cont.now.params)) }
{
    if cont.result.origin == TEE_ORIGIN_TRUSTED_APP {
        match &cont.params {
            Some(params) => copy_out(lane, cont.arg, &cont.places, params),
            None => copy_out(lane, cont.arg, &cont.places, &CopiedParams::none()),
        }
    }
}

/// Writes the number of the session of an open that has succeeded.
fn put_session(lane: &mut Lane, cont: &Cont<Pages>)
    requires { IsInRam cont.now.arg 32 }
    ensures { (call : PendingCall) → cont.now.arg ≡ call.arg → cont.now.session ≡ call.session
        → lane.new ≡ lane_after lane.old (session_writes call cont.now.kind cont.now.result) }
{
    match cont.kind {
        CallKind::Open => {
            if cont.result.result == TEE_SUCCESS {
                put_word(lane, session_at(cont.arg), cont.session);
            }
        }
        CallKind::Invoke { .. } | CallKind::Close | CallKind::Settled => {}
    }
}

/// Writes the outputs of a call that has ended, its session's number, and then its result and where that comes from.
fn put_result(lane: &mut Lane, cont: &Cont<Pages>)
    requires { HasRoomForResult cont.now }
    ensures { (call : PendingCall) → IsCall cont.now call
        → lane.new ≡ lane_after lane.old (result_writes call cont.now.result (kept_params cont.now.params)) }
{
    put_outputs(lane, cont);
    put_session(lane, cont);
    put_word(lane, ret_at(cont.arg), cont.result.result);
    put_word(lane, origin_at(cont.arg), cont.result.origin);
}

/// Writes what a call goes out with.
pub fn tell(lane: &mut Lane, cont: &Cont<Pages>, leaving: Leaving)
    requires { CanBeTold cont.now leaving }
    ensures { (call : PendingCall) → IsCall cont.now call
        → lane.new ≡ lane_after lane.old (writes_of call (leaving_as cont.now leaving)) }
{
    match leaving {
        Leaving::Interrupted | Leaving::WantsBuffer | Leaving::FreesBuffer(_) => {}
        Leaving::Requests { place, wanted } => put_wanted(lane, cont, &place, wanted),
        Leaving::Finishes => put_result(lane, cont),
    }
}

/// Leaves the slot with its call, suspended for its client, until that has finished. Its box is kept for a new call then.
pub fn slot_left(
    slots: &mut Slots<Box<Cont<Pages>>>,
    blanks: &mut Blanks,
    slot: u8,
    mut cont: Box<Cont<Pages>>,
    leaving: Leaving,
)
    requires { IsActiveAt slots.old slot }
    ensures slot { (call : PendingCall) (beside : AnyCancellation) → IsCall cont.value call → IsBeside beside call
        → HoldsNow slots.old slots.new slot beside (slot_left call (leaving_as cont.value leaving)) }
    ensures boxes { blanks.new ≡ boxes_left leaving blanks.old }
{
    match leaving {
        Leaving::Interrupted | Leaving::WantsBuffer | Leaving::Requests { .. } => {
            slots.suspend(slot, cont.client, cont);
        }
        Leaving::FreesBuffer(_) => {
            cont.buffer = None;
            slots.suspend(slot, cont.client, cont);
        }
        Leaving::Finishes => {
            slots.leave(slot);
            blanks.put(cont);
        }
    }
}

/// A slot that is left free has no pins.
pub fn tables_left(tables: &mut Tables, slot: u8, leaving: Leaving)
    ensures tables { (call : PendingCall) (cont : AnyCont (List ℕ)) → tables_of tables.new
        ≡ tables_left (tables_of tables.old) slot (slot_left call (leaving_as cont leaving)) }
    ensures stays { tables.new ≡ record tables.old { registry = tables.new.registry } }
{
    match leaving {
        Leaving::Finishes => tables.registry.unpin(slot),
        Leaving::Interrupted
        | Leaving::WantsBuffer
        | Leaving::Requests { .. }
        | Leaving::FreesBuffer(_) => {}
    }
}
