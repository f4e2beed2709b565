//! An invoke and a close, as they begin or wait.
ghost use Rattle.std.specs.Prelude.{◌≡◌, Some, None};
ghost use Rattle.base.specs.NumberMap.{get};
ghost use Rattle.begin_call.specs.Begins.{who_begins};
ghost use Rattle.begin_call.specs.Points.{points_of};
ghost use Rattle.kernel_model.specs.Application.{Booted};
ghost use Rattle.kernel_model.specs.Instances.{app_of};
ghost use Rattle.kernel_model.specs.Kernel.{Instance as AnyInstance};
ghost use Rattle.kernel_model.specs.NewCall.{closes, invokes};
ghost use Rattle.kernel_state.specs.Setup.{application_of};
ghost use Rattle.kernel_state.specs.Tables.{HasFreePages, tables_of};
ghost use Rattle.kernel_state.specs.declared.setup.Setup.{Setup as AnySetup};
ghost use Rattle.new_calls.specs.Applying.{AreRegistered};
ghost use Rattle.new_calls.specs.Deciding.{call_found};
ghost use Rattle.param_copy.specs.Outcome.{copies_in};
ghost use Rattle.rpc_cont.specs.Conts.{kept_params};
ghost use Rattle.kernel_state.specs.Blanks.{IsBlank};
ghost use Rattle.kernel_entry.specs.Applying.{HasCome, IsNew, IsTaken, KeepsSession, MayCome, MayWork, session_comes};

use crate::filling::fill_waiting;
use crate::pinning::pin_cookies;
use crate::waiting::join_line;
use arrayvec::ArrayVec;
use begin_call::{Points, SessionCall, begin_on, closing_points};
use frame_pool::Pages;
use job_model::{CallKind, EntryPoint};
use kernel_state::{Application, Tables};
use new_calls::Entered;
use param_copy::TakenParams;
use rpc_cont::{CallEntry, Cont};
use session_table::Session;
use std::alloc::Global;

/// Begins on the session's instance, or waits where another call holds it.
fn work_or_wait(tables: &mut Tables, cont: &mut Cont<Pages>, call: SessionCall)
    requires new { IsNew cont.old }
    requires comes { MayCome tables.old call.slot (application_of call.app) }
    requires works { MayWork tables.old (application_of call.app) call.session }
    ensures came { (boot : Booted) (instance : AnyInstance)
        → get (tables_of tables.old).instances call.session.instance ≡ Some instance
        → app_of boot instance.uuid ≡ Some (application_of call.app)
        → HasCome tables.new cont.old cont.new instance.uuid
        (session_comes (who_begins boot tables.old call.slot cont.old) call.session instance
        (kept_params cont.old.params) (points_of call.points)) }
    ensures pages { (setup : AnySetup) → HasFreePages setup tables.old → HasFreePages setup tables.new }
{
    let number = call.session.instance;
    if tables.is_held(number) {
        join_line(tables, cont, call.app, number, call.slot);
    } else {
        begin_on(tables, cont, call);
    }
}

/// An invoke in this session.
pub(crate) fn apply_invoke(
    tables: &mut Tables,
    entered: &Entered,
    session: Session,
    app: Application,
    copies: Box<TakenParams>,
    cont: &mut Cont<Pages>,
)
    requires blank { IsBlank cont.old }
    requires comes { MayCome tables.old entered.now.slot (application_of app) }
    requires works { MayWork tables.old (application_of app) session }
    requires buffers { AreRegistered (tables_of tables.old) copies.value.cookies.items }
    ensures taken { (boot : Booted) (instance : AnyInstance) → cont.old.key ≡ boot.key
        → get (tables_of tables.old).instances session.instance ≡ Some instance
        → app_of boot instance.uuid ≡ Some (application_of app)
        → IsTaken None entered.now tables.new cont.new
        (invokes (call_found boot (tables_of tables.old) entered.now) (session, instance) (copies_in copies.value)) }
    ensures pages { (setup : AnySetup) → HasFreePages setup tables.old → HasFreePages setup tables.new }
{
    let TakenParams {
        params,
        places,
        cookies,
    } = Box::into_inner(copies);
    let func = entered.head.func;
    let entry = CallEntry {
        client: entered.client,
        kind: CallKind::Invoke { func },
        login: session.login,
        context: session.context,
        params: Some(params),
        arg: entered.arg,
        area: entered.area,
        places,
        session: entered.head.session,
        instance: session.instance,
    };
    fill_waiting(cont, entry);
    let call = SessionCall {
        slot: entered.slot,
        session,
        app,
        points: Points::only(EntryPoint::Invoke { func }),
    };
    work_or_wait(tables, cont, call);
    pin_cookies(&mut tables.registry, cookies.as_slice(), entered.slot);
}

/// A close of this session.
pub(crate) fn apply_close(
    alloc: Global,
    tables: &mut Tables,
    entered: &Entered,
    session: Session,
    app: Application,
    cont: &mut Cont<Pages>,
)
    requires blank { IsBlank cont.old }
    requires comes { MayCome tables.old entered.now.slot (application_of app) }
    requires works { MayWork tables.old (application_of app) session }
    requires session { KeepsSession tables.old entered.now.head.session session }
    ensures taken { (boot : Booted) (instance : AnyInstance) → cont.old.key ≡ boot.key
        → get (tables_of tables.old).instances session.instance ≡ Some instance
        → app_of boot instance.uuid ≡ Some (application_of app)
        → IsTaken None entered.now tables.new cont.new
        (closes (call_found boot (tables_of tables.old) entered.now) (session, instance)) }
    ensures pages { (setup : AnySetup) → HasFreePages setup tables.old → HasFreePages setup tables.new }
{
    let number = entered.head.session;
    let entry = CallEntry {
        client: entered.client,
        kind: CallKind::Close,
        login: session.login,
        context: session.context,
        params: None,
        arg: entered.arg,
        area: entered.area,
        places: ArrayVec::new_in(alloc),
        session: number,
        instance: session.instance,
    };
    fill_waiting(cont, entry);
    let points = closing_points(tables, &app, number, session);
    let call = SessionCall {
        slot: entered.slot,
        session,
        app,
        points,
    };
    work_or_wait(tables, cont, call);
}
