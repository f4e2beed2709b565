//! Calls that go out.
ghost use Rattle.std.specs.Prelude.{◌≡◌, ◌+◌, ◌<◌, ◌^◌, ℕ, IfOk, OnErr, Option, None, Some};
ghost use Rattle.base.specs.NumberMap.{IsRising, get};
ghost use Rattle.group_model.specs.Group.{Going as AnyGoing, Group as AnyGroup, GroupCall as AnyCall, goes_out, goes_out_in, going_in, leaves, opened_by};
ghost use Rattle.group_model.specs.declared.group_reply.GroupReply.{GroupReply as AnyReply};
ghost use Rattle.group_solo.specs.Calls.{IsGroupCall};
ghost use Rattle.group_solo.specs.GoingOut.{IsGoing};
ghost use Rattle.group_solo.specs.Standing.{IsAside, IsBeside, IsNumbered, IsShortGroup, IsSomeGroup, StandsFor};
ghost use Rattle.job_model.specs.Job.{Job as AnyJob};
ghost use Rattle.kernel_model.specs.Kernel.{Runs};
ghost use Rattle.kernel_state.specs.Calls.{bytes_of};
ghost use Rattle.rpc_cont.specs.Advancing.{CanAdvance};
ghost use Rattle.solo.specs.GoingOut.{Ending as AnyEnding, phase_of};
ghost use Rattle.solo.specs.Rooms.{HoldsBytes, IsOutputRoom, IsRoom};
ghost use Rattle.solo.specs.Short.{AreShort, IsShortPhase};
ghost use Rattle.solo.specs.Stepping.{HasRoomIn};

use crate::group::GroupSolo;
use crate::kept_call::KeptCall;
use base::NoMemory;
use group_model::GroupReply;
use job_model::CallKind;
use own_model::OwnReply;
use rpc_cont::{ContStop, Phase};
use solo::{OutputRoom, Room, asked_in, ended, placed_or_alloc, run_to_stop};
use std::alloc::Global;
use ta_params::CallResult;
use ta_params::codes::TEE_SUCCESS;

/// A reply that opens no session.
fn plain(reply: OwnReply) -> GroupReply
    ensures { result ≡ record { reply = reply; opened = None } }
{
    GroupReply {
        reply,
        opened: None,
    }
}

/// The session that a call of this kind has opened which ends with this result. Its number has 32 bits, as the reply
/// names it.
fn opened_by(kind: CallKind, session: u64, outcome: CallResult) -> Option<u32>
    ensures { session < 2 ^ 32 → result ≡ opened_by kind session outcome }
{
    match kind {
        CallKind::Open if outcome.result == TEE_SUCCESS => u32::try_from(session).ok(),
        _ => None,
    }
}

impl GroupSolo {
    /// The job of a call that runs is taken to its stop.
    fn take_on(&mut self, call: &mut KeptCall)
        requires { CanAdvance bytes_of call.old.cont }
        ensures going { (most : ℕ) (g : AnyGroup) (own : AnyCall) (going : AnyGoing) (job : AnyJob)
            → IsBeside self.old g → IsRising g.sessions
            → IsGroupCall call.old own → own.phase ≡ Runs job → own.steps + most < 2 ^ 128
            → going_in most g own (Runs job) ≡ Some going → IsGoing self.new call.new g going }
        ensures app { self.new.app ≡ self.old.app }
        ensures calls { self.new.calls ≡ self.old.calls }
    {
        match run_to_stop(&mut call.cont) {
            ContStop::Interrupted | ContStop::Asks => {}
            ContStop::Ended(_) => self.end_job(call),
            ContStop::Panicked(_) => self.end_panicked(call),
        }
    }

    /// One that has ended as it goes out: it shows its result, unless it has.
    fn show_once(&mut self, call: &mut KeptCall)
        requires { call.old.cont.phase ≡ Phase.Ends }
        ensures going { (most : ℕ) (g : AnyGroup) (own : AnyCall) (going : AnyGoing) → IsBeside self.old g
            → IsGroupCall call.old own
            → going_in most g own own.phase ≡ Some going → IsGoing self.new call.new g going }
        ensures app { self.new.app ≡ self.old.app }
        ensures calls { self.new.calls ≡ self.old.calls }
    {
        let shown = call.cont.done;
        if !shown {
            self.end_unrun(call);
        }
    }

    /// A call is brought to where it goes out, by its phase.
    fn bring_to_stop(&mut self, call: &mut KeptCall)
        requires { call.old.cont.phase ≡ Phase.Runs → CanAdvance bytes_of call.old.cont }
        ensures going { (most : ℕ) (g : AnyGroup) (own : AnyCall) (going : AnyGoing) → IsBeside self.old g
            → IsRising g.sessions
            → IsGroupCall call.old own → HasRoomIn most own.steps own.phase → going_in most g own own.phase ≡ Some going
            → IsGoing self.new call.new g going }
        ensures app { self.new.app ≡ self.old.app }
        ensures calls { self.new.calls ≡ self.old.calls }
    {
        match call.cont.phase {
            Phase::Runs => self.take_on(call),
            Phase::Ends => self.show_once(call),
            Phase::Asks | Phase::Waits => {}
        }
    }

    /// The call of this number goes out, where no buffer of a call has more than so many bytes. None where there is
    /// none.
    pub(crate) fn go_out(
        &mut self,
        alloc: Global,
        number: u32,
        longest: usize,
    ) -> Result<Option<GroupReply>, NoMemory>
        requires { ∥ IsSomeGroup self.old ∥₁ }
        ensures ok { (most : ℕ) (g next : AnyGroup) (own : AnyCall) (told : Option AnyReply)
            → StandsFor self.old g → IsNumbered g
            → get g.calls number ≡ Some own → HasRoomIn most own.steps own.phase → IsShortGroup longest g
            → goes_out most g number own ≡ Some (next, told)
            → IfOk result (λ answer. (answer ≡ told) × StandsFor self.new next) }
        ensures err { (g : AnyGroup) → StandsFor self.old g → OnErr result (StandsFor self.new g) }
        ensures app { self.new.app ≡ self.old.app }
    {
        let room = Room::new(alloc, longest)?;
        let Some(mut call) = self.take(number) else {
            return Ok(None);
        };
        self.bring_to_stop(&mut call);
        Ok(Some(self.answer(number, call, room)))
    }

    /// It goes out: it asks for something, or leaves.
    fn answer(&mut self, number: u32, call: Box<KeptCall>, room: Room) -> GroupReply
        requires { IsRoom room }
        ensures answers { (longest : ℕ) (g next : AnyGroup) (own : AnyCall) (told : Option AnyReply)
            → HoldsBytes longest room.outputs → IsAside self.old number g → own.session < 2 ^ 32
            → IsGroupCall call.value own → IsShortPhase longest own.phase
            → goes_out_in g number own own.phase ≡ Some (next, told)
            → (Some result ≡ told) × StandsFor self.new next }
        ensures app { self.new.app ≡ self.old.app }
    {
        let Room { payload, outputs } = room;
        match asked_in(&call.cont, payload) {
            Some(asked) => {
                let has_area = call.cont.area.is_some();
                let has_buffer = call.cont.buffer.is_some();
                let told = placed_or_alloc(asked, has_area, has_buffer);
                self.put(number, call);
                plain(told)
            }
            None => self.leave(number, call, outputs),
        }
    }

    /// It has ended: it gives its buffer back, or is told its result.
    fn leave(&mut self, number: u32, mut call: Box<KeptCall>, outputs: OutputRoom) -> GroupReply
        requires { IsOutputRoom outputs }
        ensures leaves { (longest : ℕ) (g next : AnyGroup) (own : AnyCall) (told : Option AnyReply) (ends : AnyEnding)
            → HoldsBytes longest outputs → IsAside self.old number g → own.session < 2 ^ 32
            → IsGroupCall call.value own → own.phase ≡ phase_of ends → AreShort longest ends.params
            → leaves g number own ends.result ends.params ≡ (next, told)
            → (Some result ≡ told) × StandsFor self.new next }
        ensures app { self.new.app ≡ self.old.app }
    {
        let has_buffer = call.cont.buffer.is_some();
        if has_buffer {
            call.cont.buffer = None;
            self.put(number, call);
            plain(OwnReply::Free)
        } else {
            GroupReply {
                opened: opened_by(call.cont.kind, call.session, call.cont.result),
                reply: ended(outputs, call.cont.result, &call.cont.params),
            }
        }
    }
}
