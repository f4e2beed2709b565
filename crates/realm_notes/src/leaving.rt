//! What is told of a call that goes out.
ghost use Rattle.std.specs.Prelude.{◌≡◌, IfOk, is_some};
ghost use Rattle.std.specs.Option.{option_and_then, option_map};
ghost use Rattle.realm_notes.specs.Telling.{asked_reply, asks_with_payload, ended_as, ended_in, has_place, reply_of_call, reply_with, told_at_end, told_behind, wake_as};
ghost use Rattle.realm_notes.specs.Noted.{opened_by, opened_so};
ghost use Rattle.kernel_state.specs.Calls.{woken_slot};

use crate::realm::is_open;
use base::NoMemory;
use boxed::Boxed;
use frame_pool::Pages;
use group_model::GroupReply;
use kernel_state::Carried;
use own_model::OwnReply;
use rpc_cont::{Asked, Cont, Phase};
use rpc_msgs::Rpc;
use solo::copied_outputs;
use std::alloc::Global;
use ta_params::Buf;

/// The slot that is asked to be woken.
fn asked_wake(request: &Option<Asked>) -> Option<u32>
    ensures { result ≡ option_and_then (λ asked. woken_slot asked.rpc) request.now }
{
    match request {
        Some(asked) => match &asked.rpc {
            Rpc::Wake(slot) => Some(*slot),
            _ => None,
        },
        None => None,
    }
}

/// The slot of the call that a call which has ended wakes.
pub(crate) fn wake_of(cont: &Cont<Pages>) -> Option<u32>
    ensures { result ≡ wake_as cont.now }
{
    match cont.phase {
        Phase::Ends => asked_wake(&cont.request),
        Phase::Runs | Phase::Asks | Phase::Waits => None,
    }
}

/// What an application asks for.
fn asked_reply(alloc: Global, request: &Option<Asked>) -> Result<Option<OwnReply>, NoMemory>
    ensures { IfOk result (λ reply. reply ≡ option_map asked_reply request.now) }
{
    match request {
        Some(asked) => Ok(Some(OwnReply::Ask {
            rpc: asked.rpc.clone()?,
            payload: Buf::of(asked.payload.bytes().to_vec(alloc)?),
        })),
        None => Ok(None),
    }
}

/// Whether bytes go with what a call asks for, in a buffer.
fn asks_with_payload(cont: &Cont<Pages>) -> bool
    ensures { result ≡ asks_with_payload cont.now.phase cont.now.request }
{
    match (cont.phase, &cont.request) {
        (Phase::Asks, Some(asked)) => asked.rpc.has_payload(),
        _ => false,
    }
}

/// Whether what a call asks for has a place, in its area or its buffer.
fn has_place(cont: &Cont<Pages>) -> bool
    ensures { result ≡ has_place cont.now }
{
    cont.buffer.is_some() || (cont.area.is_some() && !asks_with_payload(cont))
}

/// What is told of a call that has ended, may have a call to wake, and may have a place to ask for that. One that has nothing
/// to ask for has given its buffer back.
fn told_behind(wakes: bool, has_place: bool, woken: Option<u32>) -> Option<OwnReply>
    ensures { result ≡ told_behind wakes has_place woken }
{
    match (wakes, has_place) {
        (false, _) => Some(OwnReply::Free),
        (true, false) => Some(OwnReply::Alloc),
        (true, true) => match woken {
            Some(call) => Some(OwnReply::Wake { call }),
            None => None,
        },
    }
}

/// What is told of a call that was left in its slot, where it wakes the call of this number: nothing of an interrupt.
pub(crate) fn reply_of(
    alloc: Global,
    cont: &Cont<Pages>,
    woken: Option<u32>,
) -> Result<Option<OwnReply>, NoMemory>
    ensures { IfOk result (λ reply. reply ≡ reply_of_call cont.now woken) }
{
    match (cont.phase, has_place(cont)) {
        (Phase::Runs, _) => Ok(None),
        (Phase::Asks | Phase::Waits, false) => Ok(Some(OwnReply::Alloc)),
        (Phase::Asks, true) => asked_reply(alloc, &cont.request),
        (Phase::Waits, true) => Ok(Some(OwnReply::Sleep)),
        (Phase::Ends, has_place) => Ok(told_behind(wake_of(cont).is_some(), has_place, woken)),
    }
}

/// What is told of a call that goes out ended, and has opened the realm's session of this number or none.
fn ended(
    alloc: Global,
    cont: &Cont<Pages>,
    opened: Option<u32>,
) -> Result<Boxed<GroupReply>, NoMemory>
    ensures { IfOk result (λ told. told ≡ record { reply = ended_as cont.now; opened = opened }) }
{
    let reply = OwnReply::Ended {
        result: cont.result.result,
        origin: cont.result.origin,
        outputs: copied_outputs(alloc, cont.result, &cont.params)?,
    };
    let told = Boxed::new(alloc, GroupReply { reply, opened })?;
    Ok(told)
}

/// What is told of the call that a processor carries, if it goes out ended, where it has opened the realm's session of this
/// number or none.
pub(crate) fn told_at_end(
    alloc: Global,
    call: &Carried,
    opened: Option<u32>,
) -> Result<Option<Boxed<GroupReply>>, NoMemory>
    ensures { IfOk result (λ told. told ≡ option_map (reply_with opened) (told_at_end call.now)) }
{
    match call {
        Carried::Nothing => Ok(None),
        Carried::Resting(cont) | Carried::Running(cont) => match cont.phase {
            Phase::Ends => Ok(Some(ended(alloc, cont, opened)?)),
            Phase::Runs | Phase::Asks | Phase::Waits => Ok(None),
        },
    }
}

/// The kernel's session that a call has opened, if it goes out ended and has opened one.
fn opened_so(cont: &Cont<Pages>) -> Option<u32>
    ensures { result ≡ option_and_then (opened_so cont.now.kind cont.now.session) (ended_in cont.now cont.now.phase) }
{
    match cont.phase {
        Phase::Ends => {
            if is_open(cont.kind) && cont.result.result == 0 {
                Some(cont.session)
            } else {
                None
            }
        }
        Phase::Runs | Phase::Asks | Phase::Waits => None,
    }
}

/// The same, of the call that a processor carries.
pub(crate) fn opened_by(call: &Carried) -> Option<u32>
    ensures { result ≡ option_and_then (opened_by call.now) (told_at_end call.now) }
{
    match call {
        Carried::Nothing => None,
        Carried::Resting(cont) | Carried::Running(cont) => opened_so(cont),
    }
}
