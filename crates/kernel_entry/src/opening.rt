//! An open, as it begins or waits.
ghost use Rattle.std.specs.Prelude.{◌≡◌, ◌+◌, true, Some, None};
ghost use Rattle.base.specs.NumberMap.{insert};
ghost use Rattle.begin_call.specs.Begins.{brought, who_begins};
ghost use Rattle.kernel_model.specs.Application.{Booted, uuid_of};
ghost use Rattle.kernel_model.specs.Instances.{app_of, shared_instance};
ghost use Rattle.kernel_model.specs.NewCall.{opens_or_waits};
ghost use Rattle.kernel_state.specs.Setup.{application_of, booted_of_setup};
ghost use Rattle.kernel_state.specs.Tables.{HasFreePages, tables_of};
ghost use Rattle.kernel_state.specs.declared.setup.Setup.{Setup as AnySetup};
ghost use Rattle.new_calls.specs.Applying.{AreRegistered};
ghost use Rattle.new_calls.specs.Deciding.{asked_by, call_found};
ghost use Rattle.param_copy.specs.Outcome.{copies_in};
ghost use Rattle.session_table.specs.Session.{reserved_for};
ghost use Rattle.session_table.specs.Sessions.{has_room};
ghost use Rattle.kernel_state.specs.Blanks.{IsBlank};
ghost use Rattle.kernel_entry.specs.Applying.{HasCome, IsNew, IsTaken, MayCome, MayOpen, open_comes};

use crate::filling::fill_waiting;
use crate::pinning::pin_cookies;
use crate::waiting::join_line;
use begin_call::{OpenCall, open_kept, open_made, shared_instance};
use frame_pool::Pages;
use job_model::CallKind;
use kernel_state::{Application, Tables};
use new_calls::Entered;
use param_copy::TakenParams;
use rpc_cont::{CallEntry, Cont};
use session_table::Sessions;
use ta_params::Login;

/// Keeps a session that isn't opened yet, and gives its number.
fn reserve_session(sessions: &mut Sessions, client: u32, login: Login, instance: u32) -> u32
    requires { has_room sessions.old ≡ true }
    ensures number { result ≡ sessions.old.next }
    ensures after { sessions.new ≡ record {
      kept = insert sessions.old.kept sessions.old.next (reserved_for client login instance);
      next = sessions.old.next + 1;
    } }
{
    let Some(number) = sessions.reserve(client, login, instance) else {
        unreachable!();
    };
    number
}

/// Begins on the instance that it shares, or on a new one; or waits, where another call holds that.
fn open_or_wait(tables: &mut Tables, cont: &mut Cont<Pages>, call: OpenCall)
    requires new { IsNew cont.old }
    requires comes { MayCome tables.old call.slot (application_of call.app) }
    requires opens { MayOpen tables.old (application_of call.app) }
    ensures came { (boot : Booted) → HasCome tables.new cont.old cont.new (uuid_of (application_of call.app))
        (open_comes (who_begins boot tables.old call.slot cont.old) (brought call cont.old)
        (shared_instance (tables_of tables.old).instances (application_of call.app))) }
    ensures pages { (setup : AnySetup)
        → app_of (booted_of_setup setup) (uuid_of (application_of call.app)) ≡ Some (application_of call.app)
        → HasFreePages setup tables.old → HasFreePages setup tables.new }
{
    match shared_instance(tables, &call.app) {
        None => open_made(tables, cont, call),
        Some(shared) => match shared.holder {
            None => open_kept(tables, cont, call, shared.number),
            Some(_) => join_line(tables, cont, call.app, shared.number, call.slot),
        },
    }
}

/// An open of this application.
pub(crate) fn apply_open(
    tables: &mut Tables,
    entered: &Entered,
    app: Application,
    login: Login,
    copies: Box<TakenParams>,
    cont: &mut Cont<Pages>,
)
    requires blank { IsBlank cont.old }
    requires comes { MayCome tables.old entered.now.slot (application_of app) }
    requires opens { MayOpen tables.old (application_of app) }
    requires buffers { AreRegistered (tables_of tables.old) copies.value.cookies.items }
    ensures taken { (boot : Booted) → cont.old.key ≡ boot.key → IsTaken None entered.now tables.new cont.new
        (opens_or_waits (call_found boot (tables_of tables.old) entered.now) (asked_by (application_of app) login)
        (application_of app) (copies_in copies.value)) }
    ensures pages { (setup : AnySetup)
        → app_of (booted_of_setup setup) (uuid_of (application_of app)) ≡ Some (application_of app)
        → HasFreePages setup tables.old → HasFreePages setup tables.new }
{
    let TakenParams {
        params,
        places,
        cookies,
    } = Box::into_inner(copies);
    let entry = CallEntry {
        client: entered.client,
        kind: CallKind::Open,
        login,
        context: 0,
        params: Some(params),
        arg: entered.arg,
        area: entered.area,
        places,
        session: 0,
        instance: 0,
    };
    fill_waiting(cont, entry);
    let slot = entered.slot;
    open_or_wait(tables, cont, OpenCall { slot, app, login });
    cont.session = reserve_session(&mut tables.sessions, entered.client, login, cont.instance);
    pin_cookies(&mut tables.registry, cookies.as_slice(), slot);
}
