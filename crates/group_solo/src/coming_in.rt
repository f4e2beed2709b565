//! Calls of opened sessions that come in.
ghost use Rattle.std.specs.Prelude.{◌≡◌, ◌≢◌, ◌∷◌, ◌<◌, ◌^◌, [], IfOk, None, OnErr, OnOk, Some, false, true, vec_capacity, vec_len};
ghost use Rattle.std.specs.Option.{option_and_then, option_copied};
ghost use Rattle.base.specs.NumberMap.{get};
ghost use Rattle.begin_call.specs.Begins.{CanBegin, IsValidApp};
ghost use Rattle.begin_call.specs.Points.{points_of};
ghost use Rattle.group_model.specs.Group.{Coming, Group as AnyGroup, GroupCall as AnyCall, Home as AnyHome, about_home, about_none, closes, comes_in, fresh_call, home, invokes, settles, waits, works_or_waits};
ghost use Rattle.group_solo.specs.Beginning.{Beginner, begun, counted, with_waiter};
ghost use Rattle.group_solo.specs.Calls.{IsGroupCall};
ghost use Rattle.group_solo.specs.Coming.{about_of};
ghost use Rattle.group_solo.specs.Standing.{StandsFor, app_in, entered_in};
ghost use Rattle.kernel_model.specs.Kernel.{Ends, Waits};
ghost use Rattle.job_model.specs.Job.{of_tee};
ghost use Rattle.job_model.specs.Point.{no_params};
ghost use Rattle.kernel_state.specs.Setup.{application_of};
ghost use Rattle.rpc_cont.specs.Conts.{kept_params};

use crate::about::About;
use crate::group::GroupSolo;
use crate::kept_call::KeptCall;
use crate::waiter::Waiter;
use base::NoMemory;
use begin_call::Points;
use job_model::{CallKind, EntryPoint};
use own_model::OwnInput;
use solo::{Entering, Ready, settled_call, waiting_call};
use std::alloc::Global;
use ta_params::CopiedParams;
use ta_params::codes::{TEE_ERROR_BAD_PARAMETERS, TEE_ERROR_TARGET_DEAD};

impl GroupSolo {
    /// A call that comes in, as it waits with a copy of these parameters.
    pub(crate) fn fresh_call(
        &self,
        alloc: Global,
        about: About,
        params: Option<&CopiedParams>,
    ) -> Result<Box<KeptCall>, NoMemory>
        ensures call { IfOk result (λ call. IsGroupCall call.value
            (fresh_call (about_of about) (Waits (kept_params (option_copied params.entry))))) }
        ensures fresh { IfOk result (λ call. CanBegin call.value.cont) }
    {
        let entering = Entering {
            kind: about.kind,
            area: about.area,
        };
        let cont = waiting_call(alloc, self.key, self.app.uuid(), entering, params)?;
        let call = KeptCall {
            session: about.session,
            instance: about.instance,
            room: None,
            cont,
        };
        Ok(Box::new(alloc, call)?)
    }

    /// A call that has this result as it comes in, which no application returned.
    fn settled_call(&self, alloc: Global, area: bool, code: u32) -> Result<Box<KeptCall>, NoMemory>
        ensures { IfOk result (λ call. IsGroupCall call.value
            (fresh_call (about_none area) (Ends (of_tee code) no_params false None))) }
    {
        let call = KeptCall {
            session: 0,
            instance: 0,
            room: None,
            cont: settled_call(alloc, self.key, area, code),
        };
        Ok(Box::new(alloc, call)?)
    }

    /// A call comes in and gets the next number.
    fn come_in(&mut self, call: Box<KeptCall>) -> Result<(), NoMemory>
        ensures ok { (g : AnyGroup) (own : AnyCall) → StandsFor self.old g → IsGroupCall call.value own
            → OnOk result (StandsFor self.new (comes_in g own)) }
        ensures err { (g : AnyGroup) → StandsFor self.old g → OnErr result (StandsFor self.new g) }
        ensures stays { self.new ≡ record self.old { calls = self.new.calls } }
    {
        self.add(call)
    }

    /// One comes in and has this result at once.
    pub(crate) fn settle(&mut self, alloc: Global, area: bool, code: u32) -> Result<(), NoMemory>
        ensures ok { (g : AnyGroup) → StandsFor self.old g → OnOk result (StandsFor self.new (settles g area code)) }
        ensures err { (g : AnyGroup) → StandsFor self.old g → OnErr result (StandsFor self.new g) }
        ensures app { self.new.app ≡ self.old.app }
    {
        let call = self.settled_call(alloc, area, code)?;
        self.come_in(call)
    }

    /// One comes in and waits for its instance, behind those that wait already.
    pub(crate) fn wait(
        &mut self,
        alloc: Global,
        about: About,
        params: Option<&CopiedParams>,
    ) -> Result<(), NoMemory>
        requires { entered_in self.old < 2 ^ 32 }
        ensures ok { (g : AnyGroup) → StandsFor self.old g
            → OnOk result (StandsFor self.new (waits g (about_of about) (kept_params (option_copied params.entry)))) }
        ensures err { (g : AnyGroup) → StandsFor self.old g → OnErr result (StandsFor self.new g) }
        ensures app { self.new.app ≡ self.old.app }
    {
        let number = self.next_number();
        let waiter = Waiter {
            call: number,
            instance: about.instance,
        };
        self.waiting.reserve(1)?;
        self.calls.reserve(1)?;
        let call = self.fresh_call(alloc, about, params)?;
        self.wait_last(waiter, call);
        Ok(())
    }

    /// The same, where there is room for it behind the others.
    pub(crate) fn wait_last(&mut self, waiter: Waiter, call: Box<KeptCall>)
        requires line { vec_len self.old.waiting < vec_capacity self.old.waiting }
        requires room { vec_len self.old.calls < vec_capacity self.old.calls }
        ensures waits { (g : AnyGroup) (own : AnyCall) → StandsFor self.old g → IsGroupCall call.value own
            → StandsFor self.new (with_waiter g waiter own) }
        ensures app { self.new.app ≡ self.old.app }
    {
        self.waiting.push_reserved(waiter);
        self.calls.push_reserved(Some(call));
    }

    /// One that has come in begins, where there is room for it behind the others.
    pub(crate) fn begin_last(
        &mut self,
        number: u32,
        mut call: Box<KeptCall>,
        ready: Ready,
        points: Points,
    )
        requires valid { IsValidApp (app_in self.old) }
        requires app { application_of ready.app ≡ app_in self.old }
        requires empty { ready.empty ≡ [] }
        requires fresh { CanBegin call.value.cont }
        requires room { vec_len self.old.calls < vec_capacity self.old.calls }
        ensures begins { (g : AnyGroup) (b : Beginner) → StandsFor self.old g → b.number ≡ number → number ≡ g.entered
            → IsGroupCall call.value b.call → b.call.phase ≡ Waits b.params
            → get g.sessions b.call.session ≡ Some b.session → g.instance ≡ Some b.there
            → StandsFor self.new (counted (begun (app_in self.old) g b (points_of points))) }
        ensures app { self.new.app ≡ self.old.app }
    {
        self.begin(number, &mut call, ready, points);
        self.calls.push_reserved(Some(call));
    }

    /// One comes in and begins these entry points.
    fn begin_new(
        &mut self,
        alloc: Global,
        about: About,
        params: Option<&CopiedParams>,
        points: Points,
    ) -> Result<(), NoMemory>
        requires valid { IsValidApp (app_in self.old) }
        requires number { entered_in self.old < 2 ^ 32 }
        ensures ok { (g : AnyGroup) (b : Beginner) → StandsFor self.old g → b.number ≡ g.entered
            → b.params ≡ kept_params (option_copied params.entry)
            → b.call ≡ fresh_call (about_of about) (Waits b.params)
            → get g.sessions b.call.session ≡ Some b.session → g.instance ≡ Some b.there
            → OnOk result (StandsFor self.new (counted (begun (app_in self.old) g b (points_of points)))) }
        ensures err { (g : AnyGroup) → StandsFor self.old g → OnErr result (StandsFor self.new g) }
        ensures app { self.new.app ≡ self.old.app }
    {
        let number = self.next_number();
        self.calls.reserve(1)?;
        let call = self.fresh_call(alloc, about, params)?;
        let ready = self.ready(alloc)?;
        self.begin_last(number, call, ready, points);
        Ok(())
    }

    /// A call of an opened session comes in: it waits where another call holds the instance, and else begins these entry
    /// points.
    fn work_or_wait(
        &mut self,
        alloc: Global,
        about: About,
        params: Option<&CopiedParams>,
        points: Points,
    ) -> Result<(), NoMemory>
        requires valid { IsValidApp (app_in self.old) }
        requires number { entered_in self.old < 2 ^ 32 }
        ensures ok { (g : AnyGroup) (coming : Coming) (at : AnyHome) → StandsFor self.old g
            → home g about.session ≡ Some at → about_of about ≡ about_home coming at
            → OnOk result (StandsFor self.new
            (works_or_waits (app_in self.old) g coming at (kept_params (option_copied params.entry)) (points_of points))) }
        ensures err { (g : AnyGroup) → StandsFor self.old g → OnErr result (StandsFor self.new g) }
        ensures app { self.new.app ≡ self.old.app }
    {
        let held = self.is_held(about.instance);
        if held {
            self.wait(alloc, about, params)
        } else {
            self.begin_new(alloc, about, params, points)
        }
    }

    /// An invoke of an opened session comes in: of a dead instance it has a result at once, else with faulty parameters;
    /// else it begins or waits.
    pub(crate) fn invoke(
        &mut self,
        alloc: Global,
        session: u64,
        func: u32,
        input: &OwnInput,
        area: bool,
    ) -> Result<(), NoMemory>
        requires valid { IsValidApp (app_in self.old) }
        requires number { entered_in self.old < 2 ^ 32 }
        ensures ok { (g next : AnyGroup) → StandsFor self.old g
            → option_and_then (invokes (app_in self.old) g func input.now area) (home g session) ≡ Some next
            → OnOk result (StandsFor self.new next) }
        ensures err { (g : AnyGroup) → StandsFor self.old g → OnErr result (StandsFor self.new g) }
        ensures app { self.new.app ≡ self.old.app }
    {
        let Some(found) = self.home(session) else {
            return self.settle(alloc, area, TEE_ERROR_BAD_PARAMETERS);
        };
        if found.found.dead {
            return self.settle(alloc, area, TEE_ERROR_TARGET_DEAD);
        }
        match input {
            OwnInput::Copied(params) => {
                let about = About {
                    kind: CallKind::Invoke { func },
                    area,
                    session,
                    instance: found.instance,
                };
                let points = Points::only(EntryPoint::Invoke { func });
                self.work_or_wait(alloc, about, Some(params), points)
            }
            OwnInput::Faulty | OwnInput::Unread => {
                self.settle(alloc, area, TEE_ERROR_BAD_PARAMETERS)
            }
        }
    }

    /// A close of an opened session comes in: it begins or waits, also where the instance is dead.
    pub(crate) fn close(&mut self, alloc: Global, session: u64, area: bool) -> Result<(), NoMemory>
        requires valid { IsValidApp (app_in self.old) }
        requires number { entered_in self.old < 2 ^ 32 }
        ensures ok { (g : AnyGroup) (at : AnyHome) → StandsFor self.old g → home g session ≡ Some at
            → OnOk result (StandsFor self.new (closes (app_in self.old) g area at)) }
        ensures err { (g : AnyGroup) → StandsFor self.old g → OnErr result (StandsFor self.new g) }
        ensures app { self.new.app ≡ self.old.app }
    {
        let Some(found) = self.home(session) else {
            return self.settle(alloc, area, TEE_ERROR_BAD_PARAMETERS);
        };
        let about = About {
            kind: CallKind::Close,
            area,
            session,
            instance: found.instance,
        };
        let points = Points::closing(self.destroys_beside(session, found.instance));
        self.work_or_wait(alloc, about, None, points)
    }
}
