//! What an entry is for a realm, by what was decided of it, before it is done.
ghost use Rattle.std.specs.Prelude.{◌≡◌, ℕ, List, IfOk};
ghost use Rattle.own_model.specs.Own.{input_of};
ghost use Rattle.kernel_entry.specs.Entering.{IsPrepared, WasPrepared};
ghost use Rattle.kernel_entry.specs.Resuming.{IsSuspended};
ghost use Rattle.realm_model.specs.Reading.{Notes as NotedOf};
ghost use Rattle.realm_notes.specs.Arriving.{IsBackIn, IsRoomIn, arrival_as, arrival_of, back_as, event_in, gets_session, input_at, opens_in};
ghost use Rattle.realm_notes.specs.Calls.{planned_call};
ghost use Rattle.realm_notes.specs.Meaning.{IsArrivalOn};
ghost use Rattle.realm_notes.specs.Noted.{AreNoted};
ghost use Rattle.realm_notes.specs.Realms.{realm_of};
ghost use Rattle.resumed_calls.specs.Giving.{given_as};

use crate::calls::{ArrivingCall, SessionCall, planned_call};
use crate::notes::Notes;
use crate::realm::Realm;
use base::NoMemory;
use boxed::Boxed;
use frame_pool::Pages;
use group_model::GroupEvent;
use kernel_entry::{EntryDecision, PlannedCall, Prepared};
use kernel_state::Core;
use own_model::BackInput;
use realm_model::RealmEvent;
use rpc_cont::{Cont, Phase, ResumeInput};
use rpc_msgs::{Payload, RpcReply};
use smc_abi::Regs;
use std::alloc::Global;
use uuid::Uuid;

/// What a new call may be as an event of the realm.
#[derive(Drop)]
pub(crate) struct NewEvent {
    pub(crate) event: Boxed<RealmEvent>,
    /// Where it is an open: the UUID of the application.
    pub(crate) opens: Option<Uuid>,
    /// Whether it is an open that gets a session.
    pub(crate) gets: bool,
}

/// What a call comes back with.
#[derive(Drop)]
pub(crate) struct Back {
    /// The steps that it had done, where it sees only now that it was cancelled.
    pub(crate) seen: Option<u128>,
    /// What it is given. None of a call that was interrupted, which had asked for nothing.
    pub(crate) input: Option<BackInput>,
}

/// A call that comes back.
#[derive(Drop)]
pub(crate) struct Resumed {
    /// What it comes back with.
    pub(crate) back: Back,
    /// Where it is an open that has waited and finds its instance gone: whether there are pages for a new one.
    pub(crate) room: Option<bool>,
}

/// What an entry is for the realm of its call.
#[derive(Drop)]
pub(crate) enum Arrival {
    /// Nothing: its answer is fixed, or its call is of another.
    Nothing,
    /// A new call, which may be this.
    New(NewEvent),
    /// A call comes back.
    Back(Boxed<Resumed>),
}

/// The event that a call is in the realm's session of this number.
pub(crate) fn event_in(call: SessionCall, session: u32) -> GroupEvent
    ensures { result ≡ event_in call session }
{
    match call {
        SessionCall::Invoke { func, input, area } => GroupEvent::Invoke {
            session,
            func,
            input,
            area,
        },
        SessionCall::Close { area } => GroupEvent::Close { session, area },
        SessionCall::Cancel => GroupEvent::Cancel { session },
    }
}

/// The UUID of the application that a new call opens.
fn opens_in(call: &ArrivingCall) -> Option<Uuid>
    ensures { result ≡ opens_in call.now }
{
    match call {
        ArrivingCall::Opens(call) => Some(call.uuid),
        ArrivingCall::InSession(_) => None,
    }
}

/// Whether a new call is an open that gets a session.
fn gets_session(call: &ArrivingCall) -> bool
    ensures { result ≡ gets_session call.now }
{
    match call {
        ArrivingCall::Opens(call) => call.reserves,
        ArrivingCall::InSession(_) => false,
    }
}

/// What a new call, whose argument names this session, may be for the realm.
fn arrival_of(
    alloc: Global,
    notes: &Notes,
    session: u32,
    call: ArrivingCall,
) -> Result<Arrival, NoMemory>
    ensures { (noted : NotedOf) → AreNoted notes.now noted → IfOk result (λ arrival. arrival
        ≡ arrival_as (realm_of notes.now.realm) noted session (Some call)) }
{
    let opens = opens_in(&call);
    let gets = gets_session(&call);
    match notes.event_of(session, call) {
        Some(came) => {
            let event = Boxed::new(alloc, RealmEvent::Comes(came))?;
            Ok(Arrival::New(NewEvent { event, opens, gets }))
        }
        None => Ok(Arrival::Nothing),
    }
}

/// What a new call that is planned may be for the realm.
fn new_arrival(alloc: Global, notes: &Notes, planned: &PlannedCall) -> Result<Arrival, NoMemory>
    ensures { (noted : NotedOf) → AreNoted notes.now noted → IfOk result (λ arrival. arrival
        ≡ arrival_as (realm_of notes.now.realm) noted planned.now.entered.head.session (planned_call planned.now)) }
{
    let call = planned_call(planned)?;
    match call {
        Some(call) => arrival_of(alloc, notes, planned.entered.head.session, call),
        None => Ok(Arrival::Nothing),
    }
}

/// A reply, once more.
fn copy_of(reply: &RpcReply) -> RpcReply
    ensures { result ≡ reply.now }
{
    RpcReply {
        ret: reply.ret,
        v: reply.v,
        w: reply.w,
        size: reply.size,
        bytes: Payload::of(reply.bytes.bytes()),
    }
}

/// What a call is given, without its buffer's place.
fn input_of(alloc: Global, given: &ResumeInput) -> Result<BackInput, NoMemory>
    ensures { IfOk result (λ input. input ≡ input_of (given_as given.now)) }
{
    match given {
        ResumeInput::Nothing => Ok(BackInput::Nothing),
        ResumeInput::Buffer { .. } => Ok(BackInput::Buffer),
        ResumeInput::NoBuffer => Ok(BackInput::NoBuffer),
        ResumeInput::Reply(reply) => {
            let reply = Boxed::new(alloc, copy_of(reply))?;
            Ok(BackInput::Reply(reply))
        }
    }
}

/// What a call comes back with in this phase that is given this. One that was interrupted had asked for nothing.
fn input_at(alloc: Global, phase: Phase, given: &ResumeInput) -> Result<Option<BackInput>, NoMemory>
    ensures { IfOk result (λ input. input ≡ input_at phase (given_as given.now)) }
{
    match phase {
        Phase::Runs => Ok(None),
        Phase::Asks | Phase::Waits | Phase::Ends => {
            let input = input_of(alloc, given)?;
            Ok(Some(input))
        }
    }
}

/// What a call comes back with that was cancelled or not, and is given this.
fn back_of(
    alloc: Global,
    cont: &Cont<Pages>,
    marked: bool,
    given: &ResumeInput,
) -> Result<Back, NoMemory>
    ensures { IfOk result (λ back. back ≡ back_as cont.now marked (given_as given.now)) }
{
    let seen = if marked && !cont.cancelled {
        Some(cont.steps)
    } else {
        None
    };
    let input = input_at(alloc, cont.phase, given)?;
    Ok(Back { seen, input })
}

/// What the call comes back with that these registers name, and that is given this.
fn back_in(alloc: Global, core: &Core, regs: &Regs, given: &ResumeInput) -> Result<Back, NoMemory>
    requires { IsSuspended core.now.parts.slots regs.now.a }
    ensures { IfOk result (IsBackIn core.now.parts regs.now.a (given_as given.now)) }
{
    let slot = regs.a[3];
    let Ok(cont) = core.parts.slots.suspended_call(slot, regs.a[7]) else {
        unreachable!()
    };
    let marked = core.parts.cancellations[slot as usize].marked;
    back_of(alloc, cont, marked, given)
}

/// Whether there are pages for a new instance, where the call that these registers name finds its own gone.
fn room_in(core: &Core, realm: &Realm, regs: &Regs) -> Option<bool>
    requires { IsSuspended core.now.parts.slots regs.now.a }
    ensures { IsRoomIn core.now.parts (realm_of realm.now) regs.now.a result }
{
    let Ok(cont) = core.parts.slots.suspended_call(regs.a[3], regs.a[7]) else {
        unreachable!()
    };
    realm.room_of(core, cont)
}

/// What the call comes back as that these registers name, and that is given this.
fn resumed_in(
    alloc: Global,
    core: &Core,
    realm: &Realm,
    regs: &Regs,
    given: &ResumeInput,
) -> Result<Resumed, NoMemory>
    requires { IsSuspended core.now.parts.slots regs.now.a }
    ensures back { IfOk result (λ came. IsBackIn core.now.parts regs.now.a (given_as given.now) came.back) }
    ensures room { IfOk result (λ came. IsRoomIn core.now.parts (realm_of realm.now) regs.now.a came.room) }
{
    let room = room_in(core, realm, regs);
    let back = back_in(alloc, core, regs, given)?;
    Ok(Resumed { back, room })
}

/// What an entry with these registers, which is prepared, is for the realm of these notes.
pub(crate) fn arrival_on(
    alloc: Global,
    notes: &Notes,
    core: &Core,
    regs: &Regs,
    prepared: &Prepared,
) -> Result<Arrival, NoMemory>
    requires { WasPrepared core.now.parts regs.now.a prepared.now }
    ensures { (lane : List ℕ) → IsPrepared core.now.parts regs.now.a lane prepared.now
        → IfOk result (IsArrivalOn notes.now core.now regs.now.a lane) }
{
    match &prepared.decision {
        EntryDecision::Answers(_) => Ok(Arrival::Nothing),
        EntryDecision::Begins(planned) => new_arrival(alloc, notes, planned),
        EntryDecision::GoesOn(decided) => {
            let came = resumed_in(alloc, core, &notes.realm, regs, &decided.given)?;
            let resumed = Boxed::new(alloc, came)?;
            Ok(Arrival::Back(resumed))
        }
    }
}
