//! Calls that come back.
ghost use Rattle.std.specs.Option.{option_map, option_map_or};
ghost use Rattle.std.specs.Prelude.{◌≡◌, ◌&&◌, [], Bool, IfOk, OnErr, OnOk, None, Some, false, not, true};
ghost use Rattle.base.specs.NumberMap.{get};
ghost use Rattle.begin_call.specs.Begins.{CanBegin, IsValidApp};
ghost use Rattle.begin_call.specs.Points.{points_of};
ghost use Rattle.group_model.specs.Group.{Group as AnyGroup, GroupCall as AnyCall, Waiting as AnyWaiting, GroupSession as AnySession, begins_again, comes_back, comes_back_in, gives_up, instance_at, opens_again, retests, waits_on, without_waiter};
ghost use Rattle.group_solo.specs.Beginning.{Beginner, begun};
ghost use Rattle.group_solo.specs.Found.{found_at};
ghost use Rattle.group_solo.specs.Calls.{IsGroupCall};
ghost use Rattle.group_solo.specs.Opening.{IsSpare};
ghost use Rattle.group_solo.specs.declared.found.Found.{Found as AnyFound};
ghost use Rattle.group_solo.specs.Standing.{ComesTo, IsBeside, IsSomeGroup, StandsFor, app_in, without_calls};
ghost use Rattle.kernel_model.specs.Kernel.{Instance as AnyInstance, Waits};
ghost use Rattle.kernel_model.specs.Resume.{is_close};
ghost use Rattle.kernel_state.specs.Calls.{bytes_of};
ghost use Rattle.kernel_state.specs.Setup.{application_of};
ghost use Rattle.rpc_cont.specs.Answering.{CanBeAnswered};
ghost use Rattle.ta_params.specs.declared.copied_params.CopiedParams.{CopiedParams as AnyParams};

use crate::found::Found;
use crate::group::GroupSolo;
use crate::kept_call::KeptCall;
use crate::sessions::session_at;
use base::NoMemory;
use begin_call::Points;
use job_model::{CallKind, EntryPoint};
use own_model::BackInput;
use rpc_cont::Phase;
use solo::{
    KeptInstance, Ready, end_with, is_close, is_no_buffer, made_instance, take_answer, take_buffer,
};
use std::alloc::Global;
use ta_params::codes::{TEE_ERROR_BAD_PARAMETERS, TEE_ERROR_OUT_OF_MEMORY, TEE_ERROR_TARGET_DEAD};

/// What a call needs that is tested again, taken before anything is changed.
#[derive(Drop)]
pub(crate) struct Spare {
    pub ready: Ready,
    /// A new instance, for an open that finds its own gone.
    pub instance: Option<KeptInstance>,
}

/// The instance that was found is dead, and the call is no close.
fn is_lost(found: Option<Found>, kind: CallKind) -> bool
    ensures { result ≡ (option_map_or (λ (found : AnyFound). found.dead) found false && not (is_close kind)) }
{
    match found {
        Some(found) => found.dead && !is_close(kind),
        None => false,
    }
}

/// A call holds the instance that was found.
fn is_held(found: Option<Found>) -> bool
    ensures { result ≡ option_map_or (λ (found : AnyFound). found.held) found false }
{
    match found {
        Some(found) => found.held,
        None => false,
    }
}

impl GroupSolo {
    /// A call that has waited gives up with this result.
    fn give_up(&mut self, number: u32, call: &mut KeptCall, code: u32)
        requires { CanBegin call.old.cont }
        ensures gives_up { (g : AnyGroup) (w : AnyWaiting) → IsBeside self.old g → IsGroupCall call.old w.call
            → w.number ≡ number → ComesTo self.new call.new number g (gives_up g w code) }
        ensures app { self.new.app ≡ self.old.app }
        ensures calls { self.new.calls ≡ self.old.calls }
    {
        self.leave_line(number);
        end_with(&mut call.cont, code);
    }

    /// Another call holds its instance: it waits on, unless it has come back without a buffer that it needs for that.
    fn wait_on(&mut self, number: u32, call: &mut KeptCall, input: &BackInput)
        requires { CanBegin call.old.cont }
        ensures waits { (g : AnyGroup) (w : AnyWaiting) → IsBeside self.old g → IsGroupCall call.old w.call
            → w.number ≡ number → w.input ≡ input.now → ComesTo self.new call.new number g (waits_on g w) }
        ensures app { self.new.app ≡ self.old.app }
        ensures calls { self.new.calls ≡ self.old.calls }
    {
        if is_no_buffer(input) {
            self.give_up(number, call, TEE_ERROR_OUT_OF_MEMORY);
        }
    }

    /// It waits no more, and begins these entry points.
    fn go_on(&mut self, number: u32, call: &mut KeptCall, ready: Ready, points: Points)
        requires valid { IsValidApp (app_in self.old) }
        requires app { application_of ready.app ≡ app_in self.old }
        requires empty { ready.empty ≡ [] }
        requires fresh { CanBegin call.old.cont }
        ensures goes_on { (g : AnyGroup) (b : Beginner) → IsBeside self.old g → IsGroupCall call.old b.call
            → b.number ≡ number → b.call.phase ≡ Waits b.params → get g.sessions b.call.session ≡ Some b.session
            → g.instance ≡ Some b.there
            → ComesTo self.new call.new number g
            (without_waiter (begun (app_in self.old) g b (points_of points)) number) }
        ensures app { self.new.app ≡ self.old.app }
        ensures calls { self.new.calls ≡ self.old.calls }
    {
        self.leave_line(number);
        self.begin(number, call, ready, points);
    }

    /// An open whose instance is gone begins on a new one of the same number, where there are pages for it.
    fn open_again(&mut self, number: u32, call: &mut KeptCall, spare: Spare)
        requires valid { IsValidApp (app_in self.old) }
        requires app { application_of spare.ready.app ≡ app_in self.old }
        requires empty { spare.ready.empty ≡ [] }
        requires spare { IsSpare (app_in self.old) call.old.room spare.instance }
        requires fresh { CanBegin call.old.cont }
        ensures opens { (g : AnyGroup) (w : AnyWaiting) (session : AnySession) (enough : Bool) → IsBeside self.old g
            → IsGroupCall call.old w.call → w.number ≡ number → w.call.phase ≡ Waits w.params
            → get g.sessions w.call.session ≡ Some session → w.call.room ≡ Some enough
            → ComesTo self.new call.new number g (opens_again (app_in self.old) g w session enough) }
        ensures app { self.new.app ≡ self.old.app }
        ensures calls { self.new.calls ≡ self.old.calls }
    {
        let Spare { ready, instance } = spare;
        match instance {
            Some(kept) => {
                let points = Points::opening(true, self.destroys(call.instance));
                self.place(call.instance, kept);
                self.go_on(number, call, ready, points);
            }
            None => self.give_up(number, call, TEE_ERROR_OUT_OF_MEMORY),
        }
    }

    /// Its instance is gone: an open makes it again, and a call of a session has lost its session with it.
    fn begin_anew(&mut self, number: u32, call: &mut KeptCall, spare: Spare)
        requires valid { IsValidApp (app_in self.old) }
        requires app { application_of spare.ready.app ≡ app_in self.old }
        requires empty { spare.ready.empty ≡ [] }
        requires spare { IsSpare (app_in self.old) call.old.room spare.instance }
        requires fresh { CanBegin call.old.cont }
        ensures begins { (g next : AnyGroup) (w : AnyWaiting) (session : AnySession) → IsBeside self.old g
            → IsGroupCall call.old w.call → w.number ≡ number → w.call.phase ≡ Waits w.params
            → get g.sessions w.call.session ≡ Some session
            → begins_again (app_in self.old) g w session w.call.kind None ≡ Some next
            → ComesTo self.new call.new number g next }
        ensures app { self.new.app ≡ self.old.app }
        ensures calls { self.new.calls ≡ self.old.calls }
    {
        match call.cont.kind {
            CallKind::Open => self.open_again(number, call, spare),
            CallKind::Invoke { .. } | CallKind::Close | CallKind::Settled => {
                self.give_up(number, call, TEE_ERROR_BAD_PARAMETERS);
            }
        }
    }

    /// Its instance is there, and no call holds it: it begins, by its kind.
    fn begin_there(&mut self, number: u32, call: &mut KeptCall, ready: Ready)
        requires valid { IsValidApp (app_in self.old) }
        requires app { application_of ready.app ≡ app_in self.old }
        requires empty { ready.empty ≡ [] }
        requires fresh { CanBegin call.old.cont }
        ensures begins { (g next : AnyGroup) (w : AnyWaiting) (session : AnySession) (instance : AnyInstance)
            → IsBeside self.old g → IsGroupCall call.old w.call → w.number ≡ number
            → w.call.phase ≡ Waits w.params → get g.sessions w.call.session ≡ Some session
            → instance_at g w.call.instance ≡ Some instance
            → begins_again (app_in self.old) g w session w.call.kind (Some instance) ≡ Some next
            → ComesTo self.new call.new number g next }
        ensures app { self.new.app ≡ self.old.app }
        ensures calls { self.new.calls ≡ self.old.calls }
    {
        match call.cont.kind {
            CallKind::Open => {
                let points = Points::opening(false, self.destroys(call.instance));
                self.go_on(number, call, ready, points);
            }
            CallKind::Invoke { func } => {
                let points = Points::only(EntryPoint::Invoke { func });
                self.go_on(number, call, ready, points);
            }
            CallKind::Close => {
                let points = Points::closing(self.destroys_beside(call.session, call.instance));
                self.go_on(number, call, ready, points);
            }
            CallKind::Settled => self.give_up(number, call, TEE_ERROR_BAD_PARAMETERS),
        }
    }

    /// It begins, where its instance is there and where that is gone.
    fn begin_again(&mut self, number: u32, call: &mut KeptCall, spare: Spare, found: Option<Found>)
        requires valid { IsValidApp (app_in self.old) }
        requires app { application_of spare.ready.app ≡ app_in self.old }
        requires empty { spare.ready.empty ≡ [] }
        requires spare { IsSpare (app_in self.old) call.old.room spare.instance }
        requires fresh { CanBegin call.old.cont }
        requires found { found ≡ option_map found_at (instance_at (without_calls self.old) call.old.instance) }
        ensures begins { (g next : AnyGroup) (w : AnyWaiting) (session : AnySession) → IsBeside self.old g
            → IsGroupCall call.old w.call → w.number ≡ number → w.call.phase ≡ Waits w.params
            → get g.sessions w.call.session ≡ Some session
            → begins_again (app_in self.old) g w session w.call.kind (instance_at g w.call.instance) ≡ Some next
            → ComesTo self.new call.new number g next }
        ensures app { self.new.app ≡ self.old.app }
        ensures calls { self.new.calls ≡ self.old.calls }
    {
        match found {
            None => self.begin_anew(number, call, spare),
            Some(_) => self.begin_there(number, call, spare.ready),
        }
    }

    /// It is tested again: its session may be gone, its instance dead, or held.
    fn retest(&mut self, number: u32, call: &mut KeptCall, input: &BackInput, spare: Spare)
        requires valid { IsValidApp (app_in self.old) }
        requires app { application_of spare.ready.app ≡ app_in self.old }
        requires empty { spare.ready.empty ≡ [] }
        requires spare { IsSpare (app_in self.old) call.old.room spare.instance }
        requires fresh { CanBegin call.old.cont }
        ensures retests { (g next : AnyGroup) (w : AnyWaiting) → IsBeside self.old g → IsGroupCall call.old w.call
            → w.call.phase ≡ Waits w.params → w.number ≡ number → w.input ≡ input.now
            → retests (app_in self.old) g w ≡ Some next → ComesTo self.new call.new number g next }
        ensures app { self.new.app ≡ self.old.app }
        ensures calls { self.new.calls ≡ self.old.calls }
    {
        let found = self.at(call.instance);
        match session_at(self.sessions.as_slice(), call.session) {
            None => self.give_up(number, call, TEE_ERROR_BAD_PARAMETERS),
            Some(_) => {
                if is_lost(found, call.cont.kind) {
                    self.give_up(number, call, TEE_ERROR_TARGET_DEAD);
                } else if is_held(found) {
                    self.wait_on(number, call, input);
                } else {
                    self.begin_again(number, call, spare, found);
                }
            }
        }
    }

    /// A call comes back, by its phase.
    fn come_back_in(&mut self, number: u32, call: &mut KeptCall, input: &BackInput, spare: Spare)
        requires valid { IsValidApp (app_in self.old) }
        requires app { application_of spare.ready.app ≡ app_in self.old }
        requires empty { spare.ready.empty ≡ [] }
        requires spare { IsSpare (app_in self.old) call.old.room spare.instance }
        requires waits { call.old.cont.phase ≡ Phase.Waits → CanBegin call.old.cont }
        requires asked { call.old.cont.phase ≡ Phase.Asks → CanBeAnswered bytes_of call.old.cont }
        ensures comes { (g next : AnyGroup) (own : AnyCall) → IsBeside self.old g → IsGroupCall call.old own
            → comes_back_in (app_in self.old) g number own input.now own.phase ≡ Some next
            → ComesTo self.new call.new number g next }
        ensures app { self.new.app ≡ self.old.app }
        ensures calls { self.new.calls ≡ self.old.calls }
    {
        match call.cont.phase {
            Phase::Waits => self.retest(number, call, input, spare),
            Phase::Runs | Phase::Asks | Phase::Ends => take_answer(&mut call.cont, input),
        }
    }

    /// What a call may need that comes back: a new instance where it was told that there are pages for one.
    fn spare(&self, alloc: Global, room: Option<bool>) -> Result<Spare, NoMemory>
        requires { IsValidApp (app_in self.now) }
        ensures app { IfOk result (λ spare. application_of spare.ready.app ≡ app_in self.now) }
        ensures empty { IfOk result (λ spare. spare.ready.empty ≡ []) }
        ensures spare { IfOk result (λ spare. IsSpare (app_in self.now) room spare.instance) }
    {
        let instance = match room {
            Some(true) => Some(made_instance(alloc, &self.app)?),
            Some(false) | None => None,
        };
        Ok(Spare {
            ready: self.ready(alloc)?,
            instance,
        })
    }

    /// The call of this number comes back with this.
    pub(crate) fn come_back(
        &mut self,
        alloc: Global,
        number: u32,
        input: &BackInput,
    ) -> Result<(), NoMemory>
        requires { ∥ IsSomeGroup self.old ∥₁ }
        ensures ok { (g next : AnyGroup) (own : AnyCall) → StandsFor self.old g
            → get g.calls number ≡ Some own → comes_back (app_in self.old) g number input.now own ≡ Some next
            → OnOk result (StandsFor self.new next) }
        ensures err { (g : AnyGroup) → StandsFor self.old g → OnErr result (StandsFor self.new g) }
        ensures app { self.new.app ≡ self.old.app }
    {
        let spare = self.spare(alloc, self.room_of(number))?;
        let Some(mut call) = self.take(number) else {
            return Ok(());
        };
        take_buffer(&mut call.cont, input);
        self.come_back_in(number, &mut call, input, spare);
        self.put(number, call);
        Ok(())
    }
}
