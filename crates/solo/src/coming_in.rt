//! Calls that come in.
ghost use Rattle.std.specs.Prelude.{◌≡◌, ◌≢◌, ◌<◌, ◌^◌, [], IfOk, None, OnErr, OnOk, Some, false, is_some, vec_capacity, vec_len};
ghost use Rattle.std.specs.Option.{option_and_then, option_copied};
ghost use Rattle.base.specs.NumberMap.{insert};
ghost use Rattle.begin_call.specs.Begins.{CanBegin, IsValidApp};
ghost use Rattle.job_model.specs.Job.{of_tee};
ghost use Rattle.job_model.specs.Point.{no_params};
ghost use Rattle.kernel_model.specs.Kernel.{Ends, Instance as AnyInstance, Waits};
ghost use Rattle.kernel_state.specs.Setup.{application_of};
ghost use Rattle.ta_params.specs.declared.copied_params.CopiedParams.{CopiedParams as AnyParams};
ghost use Rattle.own_model.specs.Solo.{OwnCall as AnyCall, OwnSession as AnySession, Solo as AnySolo, counted, fresh_call, home, invokes, opens, settles, start_with, waits, works_or_waits, begins, closes};
ghost use Rattle.rpc_cont.specs.Conts.{kept_params};
ghost use Rattle.solo.specs.Calls.{IsCall};
ghost use Rattle.solo.specs.Standing.{StandsFor, app_in, entered_in};

use crate::beginning::Ready;
use crate::copies::copied_if_some;
use crate::entering::Entering;
use crate::kept_instance::made_instance;
use crate::kept_session::KeptSession;
use crate::solo_session::SoloSession;
use arrayvec::ArrayVec;
use base::NoMemory;
use job_model::CallKind;
use own_model::OwnInput;
use rpc_cont::{CallEntry, Cont, ContApp};
use std::alloc::Global;
use ta_params::codes::{TEE_ERROR_BAD_PARAMETERS, TEE_ERROR_TARGET_DEAD};
use ta_params::{CallResult, CopiedParams, Login};
use ta_step::Plain;
use tee_storage::Key;
use uuid::Uuid;

/// What a call has from its entry on. No other session is there, no client and no argument, and of an area only whether
/// there is one; who opened the session is told to a call as it begins.
fn entry_of(alloc: Global, entering: Entering, params: Option<CopiedParams>) -> CallEntry
    ensures kind { result.kind ≡ entering.kind }
    ensures area { is_some result.area ≡ entering.area }
    ensures params { result.params ≡ params }
{
    CallEntry {
        client: 0,
        kind: entering.kind,
        login: Login::public(),
        context: 0,
        params,
        arg: 0,
        area: entering.area.then_some(0),
        places: ArrayVec::new_in(alloc),
        session: 0,
        instance: 0,
    }
}

/// A call of the application of this UUID that comes in, as it waits with a copy of these parameters.
pub fn waiting_call(
    alloc: Global,
    key: Key,
    uuid: Uuid,
    entering: Entering,
    params: Option<&CopiedParams>,
) -> Result<Cont<Plain>, NoMemory>
    ensures call { IfOk result (λ call. IsCall call
        (fresh_call entering.kind entering.area (Waits (kept_params (option_copied params.entry))))) }
    ensures fresh { IfOk result CanBegin }
{
    let params = copied_if_some(params)?;
    let mut cont = Cont::waiting(key, entry_of(alloc, entering, params));
    cont.app = Some(ContApp::Dead { uuid });
    Ok(cont)
}

/// A call that has this result as it comes in, which no application returned.
pub fn settled_call(alloc: Global, key: Key, area: bool, code: u32) -> Cont<Plain>
    ensures { IsCall result (fresh_call CallKind.Settled area (Ends (of_tee code) no_params false None)) }
{
    let entering = Entering {
        kind: CallKind::Settled,
        area,
    };
    let entered = entry_of(alloc, entering, None);
    Cont::settled(key, entered, CallResult::of_tee(code))
}

impl SoloSession {
    /// A call that comes in to the application, as it waits with a copy of these parameters.
    fn fresh_call(
        &self,
        alloc: Global,
        entering: Entering,
        params: Option<&CopiedParams>,
    ) -> Result<Box<Cont<Plain>>, NoMemory>
        ensures call { IfOk result (λ call. IsCall call.value
            (fresh_call entering.kind entering.area (Waits (kept_params (option_copied params.entry))))) }
        ensures fresh { IfOk result (λ call. CanBegin call.value) }
    {
        let cont = waiting_call(alloc, self.key, self.app.uuid(), entering, params)?;
        Ok(Box::new(alloc, cont)?)
    }

    /// A call that has this result as it comes in, which no application returned.
    fn settled_call(
        &self,
        alloc: Global,
        area: bool,
        code: u32,
    ) -> Result<Box<Cont<Plain>>, NoMemory>
        ensures { IfOk result (λ call. IsCall call.value (fresh_call CallKind.Settled area
            (Ends (of_tee code) no_params false None))) }
    {
        Ok(Box::new(alloc, settled_call(alloc, self.key, area, code))?)
    }

    /// A call comes in and gets the next number.
    #[tactic(auto, using(crate::proofs::Adding::added, crate::proofs::Adding::stands_still))]
    fn come_in(&mut self, call: Box<Cont<Plain>>) -> Result<(), NoMemory>
        ensures ok { (solo : AnySolo) (own : AnyCall) → StandsFor self.old solo → IsCall call.value own
            → OnOk result (StandsFor self.new (record (counted solo) { calls = insert solo.calls solo.entered own })) }
        ensures err { (solo : AnySolo) → StandsFor self.old solo → OnErr result (StandsFor self.new solo) }
        ensures stays { self.new ≡ record self.old { calls = self.new.calls } }
    {
        self.add(call)
    }

    /// A call comes in and has this result at once.
    pub(crate) fn settle(&mut self, alloc: Global, area: bool, code: u32) -> Result<(), NoMemory>
        ensures ok { (solo : AnySolo) → StandsFor self.old solo → OnOk result (StandsFor self.new (settles solo area code)) }
        ensures err { (solo : AnySolo) → StandsFor self.old solo → OnErr result (StandsFor self.new solo) }
        ensures app { self.new.app ≡ self.old.app }
    {
        let call = self.settled_call(alloc, area, code)?;
        self.come_in(call)
    }

    /// One comes in and waits, behind those that wait already.
    fn wait(
        &mut self,
        alloc: Global,
        entering: Entering,
        params: Option<&CopiedParams>,
    ) -> Result<(), NoMemory>
        requires { entered_in self.old < 2 ^ 32 }
        ensures ok { (solo : AnySolo) → StandsFor self.old solo
            → OnOk result (StandsFor self.new (waits solo entering.kind entering.area (kept_params (option_copied params.entry)))) }
        ensures err { (solo : AnySolo) → StandsFor self.old solo → OnErr result (StandsFor self.new solo) }
        ensures app { self.new.app ≡ self.old.app }
    {
        let number = self.next_number();
        self.waiting.reserve(1)?;
        let call = self.fresh_call(alloc, entering, params)?;
        self.come_in(call)?;
        self.waiting.push_reserved(number);
        Ok(())
    }

    /// One that has come in begins, where there is room for it behind the others.
    fn begin_last(&mut self, number: u32, mut call: Box<Cont<Plain>>, ready: Ready)
        requires valid { IsValidApp (app_in self.old) }
        requires app { application_of ready.app ≡ app_in self.old }
        requires empty { ready.empty ≡ [] }
        requires fresh { CanBegin call.value }
        requires room { vec_len self.old.calls < vec_capacity self.old.calls }
        ensures begins { (solo : AnySolo) (own : AnyCall) (at : AnySession × AnyInstance) (params : AnyParams)
            → StandsFor self.old solo
            → number ≡ solo.entered → IsCall call.value own → own.phase ≡ Waits params
            → own.kind ≢ CallKind.Settled → home solo ≡ Some at
            → StandsFor self.new (counted (begins (app_in self.old) solo number own
            (record { session = at.0; instance = at.1; params = params; seen = own.seen; key = solo.key }))) }
        ensures app { self.new.app ≡ self.old.app }
    {
        self.begin(number, &mut call, ready);
        self.calls.push_reserved(Some(call));
    }

    /// One comes in and begins.
    fn begin_new(
        &mut self,
        alloc: Global,
        entering: Entering,
        params: Option<&CopiedParams>,
    ) -> Result<(), NoMemory>
        requires valid { IsValidApp (app_in self.old) }
        requires number { entered_in self.old < 2 ^ 32 }
        ensures ok { (solo : AnySolo) (at : AnySession × AnyInstance) → StandsFor self.old solo → home solo ≡ Some at
            → entering.kind ≢ CallKind.Settled
            → OnOk result (StandsFor self.new (begins (app_in self.old) (counted solo) solo.entered
            (fresh_call entering.kind entering.area (Waits (kept_params (option_copied params.entry))))
            (start_with solo at (kept_params (option_copied params.entry))))) }
        ensures err { (solo : AnySolo) → StandsFor self.old solo → OnErr result (StandsFor self.new solo) }
        ensures app { self.new.app ≡ self.old.app }
    {
        let number = self.next_number();
        self.calls.reserve(1)?;
        let call = self.fresh_call(alloc, entering, params)?;
        let ready = self.ready(alloc)?;
        self.begin_last(number, call, ready);
        Ok(())
    }

    /// One comes in on the instance: it waits where another holds that, and else begins.
    fn work_or_wait(
        &mut self,
        alloc: Global,
        entering: Entering,
        params: Option<&CopiedParams>,
    ) -> Result<(), NoMemory>
        requires valid { IsValidApp (app_in self.old) }
        requires number { entered_in self.old < 2 ^ 32 }
        ensures ok { (solo : AnySolo) (at : AnySession × AnyInstance) → StandsFor self.old solo → home solo ≡ Some at
            → entering.kind ≢ CallKind.Settled → OnOk result (StandsFor self.new
            (works_or_waits (app_in self.old) solo entering.kind entering.area (start_with solo at (kept_params (option_copied params.entry))))) }
        ensures err { (solo : AnySolo) → StandsFor self.old solo → OnErr result (StandsFor self.new solo) }
        ensures app { self.new.app ≡ self.old.app }
    {
        let held = self.is_held();
        if held {
            self.wait(alloc, entering, params)
        } else {
            self.begin_new(alloc, entering, params)
        }
    }

    /// The open makes session and instance, and begins.
    pub(crate) fn open(
        &mut self,
        alloc: Global,
        params: &CopiedParams,
        login: Login,
        area: bool,
    ) -> Result<(), NoMemory>
        requires valid { IsValidApp (app_in self.old) }
        requires number { entered_in self.old < 2 ^ 32 }
        ensures ok { (solo : AnySolo) → StandsFor self.old solo → solo.entered ≡ 0
            → OnOk result (StandsFor self.new (opens (app_in self.old) solo params.now login area)) }
        ensures err { (solo : AnySolo) → StandsFor self.old solo → OnErr result (StandsFor self.new solo) }
        ensures app { self.new.app ≡ self.old.app }
    {
        let number = self.next_number();
        self.calls.reserve(1)?;
        let entering = Entering {
            kind: CallKind::Open,
            area,
        };
        let call = self.fresh_call(alloc, entering, Some(params))?;
        let instance = made_instance(alloc, &self.app)?;
        let ready = self.ready(alloc)?;
        self.session = Some(KeptSession {
            login,
            context: 0,
            opened: false,
        });
        self.instance = Some(instance);
        self.begin_last(number, call, ready);
        Ok(())
    }

    /// An invoke comes in: of a dead instance it has a result at once, else with faulty parameters; else it begins or
    /// waits.
    pub(crate) fn invoke(
        &mut self,
        alloc: Global,
        func: u32,
        input: &OwnInput,
        area: bool,
    ) -> Result<(), NoMemory>
        requires valid { IsValidApp (app_in self.old) }
        requires number { entered_in self.old < 2 ^ 32 }
        ensures ok { (solo next : AnySolo) → StandsFor self.old solo
            → option_and_then (invokes (app_in self.old) solo func input.now area) (home solo) ≡ Some next
            → OnOk result (StandsFor self.new next) }
        ensures err { (solo : AnySolo) → StandsFor self.old solo → OnErr result (StandsFor self.new solo) }
        ensures app { self.new.app ≡ self.old.app }
    {
        let Some(found) = self.home() else {
            return self.settle(alloc, area, TEE_ERROR_BAD_PARAMETERS);
        };
        if found.dead {
            return self.settle(alloc, area, TEE_ERROR_TARGET_DEAD);
        }
        match input {
            OwnInput::Copied(params) => {
                let kind = CallKind::Invoke { func };
                self.work_or_wait(alloc, Entering { kind, area }, Some(params))
            }
            OwnInput::Faulty | OwnInput::Unread => {
                self.settle(alloc, area, TEE_ERROR_BAD_PARAMETERS)
            }
        }
    }

    /// A close comes in: it begins or waits, also where the instance is dead.
    pub(crate) fn close(&mut self, alloc: Global, area: bool) -> Result<(), NoMemory>
        requires valid { IsValidApp (app_in self.old) }
        requires number { entered_in self.old < 2 ^ 32 }
        ensures ok { (solo : AnySolo) (at : AnySession × AnyInstance) → StandsFor self.old solo → home solo ≡ Some at
            → OnOk result (StandsFor self.new (closes (app_in self.old) solo area at)) }
        ensures err { (solo : AnySolo) → StandsFor self.old solo → OnErr result (StandsFor self.new solo) }
        ensures app { self.new.app ≡ self.old.app }
    {
        let kind = CallKind::Close;
        self.work_or_wait(alloc, Entering { kind, area }, None)
    }
}
