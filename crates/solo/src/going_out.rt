//! Calls that go out.
ghost use Rattle.std.specs.Prelude.{◌≡◌, ◌+◌, ◌<◌, ◌≤◌, ◌^◌, ℕ, [], IfOk, OnErr, Option, Some, vec_capacity};
ghost use Rattle.std.specs.Option.{option_and_then};
ghost use Rattle.base.specs.NumberMap.{get};
ghost use Rattle.job_model.specs.Job.{Job as AnyJob};
ghost use Rattle.kernel_model.specs.Kernel.{CallPhase as AnyPhase, Runs};
ghost use Rattle.kernel_state.specs.Calls.{IsInPhase, bytes_of, woken_slot};
ghost use Rattle.own_model.specs.Own.{ended};
ghost use Rattle.own_model.specs.Solo.{Going as AnyGoing, OwnCall as AnyCall, Solo as AnySolo, goes_out, goes_out_in, going_in, leaves};
ghost use Rattle.own_model.specs.declared.own_reply.OwnReply.{OwnReply as AnyReply};
ghost use Rattle.rpc_cont.specs.Advancing.{CanAdvance};
ghost use Rattle.solo.specs.Calls.{IsCall};
ghost use Rattle.solo.specs.GoingOut.{Ending as AnyEnding, IsGoing, asked_in, asks_with_payload, phase_of, placed_or_alloc};
ghost use Rattle.solo.specs.Rooms.{HoldsBytes, IsOutputRoom, IsRoom};
ghost use Rattle.solo.specs.Short.{AreShort, IsShortPhase, IsShortSolo};
ghost use Rattle.solo.specs.Stepping.{HasRoomIn};
ghost use Rattle.solo.specs.Standing.{IsAside, IsBeside, IsSomeSolo, StandsFor};

use crate::copies::copied_rpc;
use crate::outputs::ended;
use crate::room::{OutputRoom, Room};
use crate::solo_session::SoloSession;
use crate::stops::run_to_stop;
use base::NoMemory;
use own_model::OwnReply;
use rpc_cont::{Asked, Cont, ContStop, Phase};
use rpc_msgs::{Payload, Rpc};
use std::alloc::Global;
use ta_params::Buf;
use ta_step::Plain;

/// A copy of a payload, in a list with room for it. Takes no memory.
fn copied_payload(mut room: Vec<u8>, payload: &Payload) -> Buf
    requires empty { room.items ≡ [] }
    requires room { 3584 ≤ vec_capacity room }
    ensures { result ≡ payload.now }
{
    room.extend_from_slice(payload.bytes()).unwrap();
    Buf::of(room)
}

/// What the application asks for.
fn asked_reply(asked: &Asked, room: Vec<u8>) -> OwnReply
    requires empty { room.items ≡ [] }
    requires room { 3584 ≤ vec_capacity room }
    ensures { result ≡ OwnReply.Ask asked.now.rpc asked.now.payload }
{
    OwnReply::Ask {
        rpc: copied_rpc(&asked.rpc),
        payload: copied_payload(room, &asked.payload),
    }
}

/// The number of the call that it asks to wake.
fn woken_call(cont: &Cont<Plain>) -> Option<u32>
    ensures { result ≡ option_and_then (λ asked. woken_slot asked.rpc) cont.now.request }
{
    match &cont.request {
        Some(asked) => match &asked.rpc {
            Rpc::Wake(number) => Some(*number),
            _ => None,
        },
        None => None,
    }
}

/// What a call asks for, if it does, where that has a place.
#[tactic(auto, using(crate::proofs::Answering::runs_told, crate::proofs::Answering::asks_told, crate::proofs::Answering::asks_something, crate::proofs::Answering::waits_told, crate::proofs::Answering::ends_told))]
pub fn asked_in(cont: &Cont<Plain>, room: Vec<u8>) -> Option<OwnReply>
    requires empty { room.items ≡ [] }
    requires room { 3584 ≤ vec_capacity room }
    ensures { (phase : AnyPhase) → IsInPhase cont.now phase → result ≡ asked_in phase }
{
    match cont.phase {
        Phase::Runs => None,
        Phase::Asks => Some(asked_reply(cont.request.as_ref()?, room)),
        Phase::Waits => Some(OwnReply::Sleep),
        Phase::Ends => Some(OwnReply::Wake {
            call: woken_call(cont)?,
        }),
    }
}

/// Whether bytes go with what is asked for, in a buffer.
fn asks_with_payload(asked: &OwnReply) -> bool
    ensures { result ≡ asks_with_payload asked.now }
{
    match asked {
        OwnReply::Ask { rpc, .. } => rpc.has_payload(),
        _ => false,
    }
}

/// What is asked for, where an area or a buffer gives it a place, or first a buffer.
pub fn placed_or_alloc(asked: OwnReply, has_area: bool, has_buffer: bool) -> OwnReply
    ensures { result ≡ placed_or_alloc has_area has_buffer asked }
{
    if has_buffer || (has_area && !asks_with_payload(&asked)) {
        asked
    } else {
        OwnReply::Alloc
    }
}

impl SoloSession {
    /// The job of a call that runs is taken to its stop.
    fn take_on(&mut self, cont: &mut Cont<Plain>)
        requires { CanAdvance bytes_of cont.old }
        ensures going { (most : ℕ) (solo : AnySolo) (call : AnyCall) (going : AnyGoing) (job : AnyJob)
            → IsBeside self.old solo
            → IsCall cont.old call → call.phase ≡ Runs job → call.steps + most < 2 ^ 128
            → going_in most solo call (Runs job) ≡ Some going → IsGoing self.new cont.new solo going }
        ensures app { self.new.app ≡ self.old.app }
        ensures calls { self.new.calls ≡ self.old.calls }
    {
        match run_to_stop(cont) {
            ContStop::Interrupted | ContStop::Asks => {}
            ContStop::Ended(_) => self.end_job(cont),
            ContStop::Panicked(_) => self.end_panicked(cont),
        }
    }

    /// A call is brought to where it goes out, by its phase.
    fn bring_to_stop(&mut self, cont: &mut Cont<Plain>)
        requires { cont.old.phase ≡ Phase.Runs → CanAdvance bytes_of cont.old }
        ensures going { (most : ℕ) (solo : AnySolo) (call : AnyCall) (going : AnyGoing) → IsBeside self.old solo
            → IsCall cont.old call → HasRoomIn most call.steps call.phase → going_in most solo call call.phase ≡ Some going
            → IsGoing self.new cont.new solo going }
        ensures app { self.new.app ≡ self.old.app }
        ensures calls { self.new.calls ≡ self.old.calls }
    {
        match cont.phase {
            Phase::Runs => self.take_on(cont),
            Phase::Ends => self.show_once(cont),
            Phase::Asks | Phase::Waits => {}
        }
    }

    /// One that has ended as it goes out: it shows its result, unless it has.
    fn show_once(&mut self, cont: &mut Cont<Plain>)
        requires { cont.old.phase ≡ Phase.Ends }
        ensures going { (most : ℕ) (solo : AnySolo) (call : AnyCall) (going : AnyGoing) → IsBeside self.old solo
            → IsCall cont.old call
            → going_in most solo call call.phase ≡ Some going → IsGoing self.new cont.new solo going }
        ensures app { self.new.app ≡ self.old.app }
        ensures calls { self.new.calls ≡ self.old.calls }
    {
        let shown = cont.done;
        if !shown {
            self.end_unrun(cont);
        }
    }

    /// The call of this number goes out, where no buffer of a call has more than so many bytes. None where there is
    /// none.
    pub(crate) fn go_out(
        &mut self,
        alloc: Global,
        number: u32,
        longest: usize,
    ) -> Result<Option<OwnReply>, NoMemory>
        requires { ∥ IsSomeSolo self.old ∥₁ }
        ensures ok { (most : ℕ) (solo next : AnySolo) (call : AnyCall) (told : Option AnyReply)
            → StandsFor self.old solo
            → get solo.calls number ≡ Some call → HasRoomIn most call.steps call.phase → IsShortSolo longest solo
            → goes_out most solo number call ≡ Some (next, told)
            → IfOk result (λ answer. (answer ≡ told) × StandsFor self.new next) }
        ensures err { (solo : AnySolo) → StandsFor self.old solo → OnErr result (StandsFor self.new solo) }
        ensures app { self.new.app ≡ self.old.app }
    {
        let room = Room::new(alloc, longest)?;
        let Some(mut call) = self.take(number) else {
            return Ok(None);
        };
        self.bring_to_stop(&mut call);
        Ok(Some(self.answer(number, call, room)))
    }

    /// It goes out: it asks for something, or leaves.
    fn answer(&mut self, number: u32, call: Box<Cont<Plain>>, room: Room) -> OwnReply
        requires { IsRoom room }
        ensures answers { (longest : ℕ) (solo next : AnySolo) (own : AnyCall) (told : Option AnyReply)
            → HoldsBytes longest room.outputs → IsAside self.old number solo
            → IsCall call.value own → IsShortPhase longest own.phase → goes_out_in solo number own own.phase ≡ Some (next, told)
            → (Some result ≡ told) × StandsFor self.new next }
        ensures app { self.new.app ≡ self.old.app }
    {
        let Room { payload, outputs } = room;
        match asked_in(&call, payload) {
            Some(asked) => {
                let has_area = call.area.is_some();
                let has_buffer = call.buffer.is_some();
                let told = placed_or_alloc(asked, has_area, has_buffer);
                self.put(number, call);
                told
            }
            None => self.leave(number, call, outputs),
        }
    }

    /// It has ended: it gives its buffer back, or is told its result.
    fn leave(&mut self, number: u32, mut call: Box<Cont<Plain>>, outputs: OutputRoom) -> OwnReply
        requires { IsOutputRoom outputs }
        ensures leaves { (longest : ℕ) (solo next : AnySolo) (own : AnyCall) (told : Option AnyReply) (ends : AnyEnding)
            → HoldsBytes longest outputs → IsAside self.old number solo
            → IsCall call.value own → own.phase ≡ phase_of ends → AreShort longest ends.params
            → leaves solo number own (ended ends.result ends.params) ≡ (next, told)
            → (Some result ≡ told) × StandsFor self.new next }
        ensures app { self.new.app ≡ self.old.app }
    {
        let has_buffer = call.buffer.is_some();
        if has_buffer {
            call.buffer = None;
            self.put(number, call);
            OwnReply::Free
        } else {
            ended(outputs, call.result, &call.params)
        }
    }
}
