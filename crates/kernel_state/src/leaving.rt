//! What a call goes out with, from the call as plain data: a resume asks it of a call that is suspended, and an exit of one
//! that goes out.
ghost use Rattle.std.specs.Prelude.{◌≡◌, ℕ, IsSome, Some};
ghost use Rattle.std.specs.Option.{option_and_then};
ghost use Rattle.kernel_model.specs.Kernel.{PendingCall};
ghost use Rattle.kernel_model.specs.Leaving.{leaving_of};
ghost use Rattle.kernel_state.specs.Calls.{IsCall, woken_slot};
ghost use Rattle.rpc_msgs.specs.declared.request_place.RequestPlace.{RequestPlace as AnyPlace};
ghost use Rattle.kernel_state.specs.CallLeaving.{asking_nothing, leaving_as, leaving_by, place_of, wanted_in};

use frame_pool::Pages;
use rpc_cont::{Cont, Phase};
use rpc_msgs::{RequestPlace, Rpc, RpcBuffer};

/// What a call asks the normal world for.
#[derive(Clone, Copy)]
pub enum Wanted {
    /// What its application asked for: the call's `request`.
    Asked,
    /// To sleep, until this slot is woken.
    Sleep(u32),
    /// To wake the call of this slot.
    Wake(u32),
}

/// What a call goes out with.
#[derive(Clone, Copy)]
pub enum Leaving {
    /// Its application still runs.
    Interrupted,
    /// It asks for something, and wants a place for that first.
    WantsBuffer,
    /// It asks for this, at this place.
    Requests { place: RequestPlace, wanted: Wanted },
    /// It has ended, and gives its buffer back first.
    FreesBuffer(RpcBuffer),
    /// It has ended.
    Finishes,
}

impl Leaving {
    /// What the call of a slot goes out with.
    #[tactic(auto, using(crate::proofs::LeavingTold::leaving_told, crate::proofs::LeavingTold::asked_there, crate::proofs::LeavingTold::asked_kept))]
    pub fn of(slot: u32, cont: &Cont<Pages>) -> Leaving
        ensures call { (call : PendingCall) → IsCall cont.now call → leaving_of slot call ≡ leaving_as cont.now result }
        ensures asked { (place : AnyPlace) → result ≡ Leaving.Requests place Wanted.Asked → IsSome cont.now.request }
    {
        leaving_by(cont, wanted_in(slot, cont))
    }
}

/// What the call of a slot asks for, if it does: to sleep while it waits, and behind its end to wake another.
fn wanted_in(slot: u32, cont: &Cont<Pages>) -> Option<Wanted>
    ensures { result ≡ wanted_in slot cont.now.phase cont.now.request }
{
    match cont.phase {
        Phase::Runs => None,
        Phase::Asks => cont.request.is_some().then_some(Wanted::Asked),
        Phase::Waits => Some(Wanted::Sleep(slot)),
        Phase::Ends => Some(Wanted::Wake(woken_slot(cont)?)),
    }
}

/// The slot that it asks to wake.
fn woken_slot(cont: &Cont<Pages>) -> Option<u32>
    ensures { result ≡ option_and_then (λ asked. woken_slot asked.rpc) cont.now.request }
{
    match &cont.request {
        Some(asked) => match &asked.rpc {
            Rpc::Wake(slot) => Some(*slot),
            _ => None,
        },
        None => None,
    }
}

/// What it goes out with, by what it asks for, if it does.
fn leaving_by(cont: &Cont<Pages>, wanted: Option<Wanted>) -> Leaving
    requires { wanted ≡ Some Wanted.Asked → IsSome cont.now.request }
    ensures { result ≡ leaving_by cont.now wanted }
{
    let Some(wanted) = wanted else {
        return asking_nothing(cont.phase, cont.buffer);
    };
    match place_of(cont, wanted) {
        Some(place) => Leaving::Requests { place, wanted },
        None => Leaving::WantsBuffer,
    }
}

/// Where the request of a call that asks for this goes, if it has a place.
fn place_of(cont: &Cont<Pages>, wanted: Wanted) -> Option<RequestPlace>
    requires { wanted ≡ Wanted.Asked → IsSome cont.now.request }
    ensures { result ≡ place_of cont.now wanted }
{
    match wanted {
        Wanted::Asked => match &cont.request {
            Some(asked) => RequestPlace::of(cont.area, cont.buffer, &asked.rpc),
            None => unreachable!(),
        },
        Wanted::Sleep(slot) => RequestPlace::of(cont.area, cont.buffer, &Rpc::Sleep(slot)),
        Wanted::Wake(slot) => RequestPlace::of(cont.area, cont.buffer, &Rpc::Wake(slot)),
    }
}

/// What a call goes out with that asks for nothing, by how far it has come, and by its buffer.
fn asking_nothing(phase: Phase, buffer: Option<RpcBuffer>) -> Leaving
    ensures { result ≡ asking_nothing phase buffer }
{
    match (phase, buffer) {
        (Phase::Ends, Some(buffer)) => Leaving::FreesBuffer(buffer),
        (Phase::Ends, None) => Leaving::Finishes,
        (Phase::Runs | Phase::Asks | Phase::Waits, _) => Leaving::Interrupted,
    }
}
