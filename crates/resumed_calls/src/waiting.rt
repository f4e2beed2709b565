//! A call that waited for its instance, as it is tested again.
ghost use Rattle.std.specs.Prelude.{◌≡◌, ◌&&◌, not, None, Some, false, is_some, true};
ghost use Rattle.std.specs.Option.{option_map_or};
ghost use Rattle.base.specs.NumberMap.{get};
ghost use Rattle.kernel_model.specs.Application.{Booted};
ghost use Rattle.kernel_model.specs.Begin.{begins_on};
ghost use Rattle.kernel_model.specs.Given.{Given};
ghost use Rattle.kernel_model.specs.Kernel.{Instance as AnyInstance, PendingCall};
ghost use Rattle.kernel_model.specs.Resume.{begins, begins_in, begins_open, ends_with, is_close, is_without_buffer, resumes_waiting, sleeps_on, tested_again, who_resumes};
ghost use Rattle.kernel_state.specs.Calls.{IsCall};
ghost use Rattle.kernel_state.specs.Setup.{application_of, booted_of_setup};
ghost use Rattle.kernel_state.specs.Tables.{HasFreePages, tables_of};
ghost use Rattle.session_table.specs.Waiters.{waits};
ghost use Rattle.ta_params.specs.declared.copied_params.CopiedParams.{CopiedParams as AnyParams};
ghost use Rattle.begin_call.specs.Begins.{brought};
ghost use Rattle.begin_call.specs.Points.{points_of};
ghost use Rattle.resumed_calls.specs.Onward.{HasCome};
ghost use Rattle.resumed_calls.specs.Waiting.{CanBeginOn, IsInLine, IsItsApp, IsWaitingCall, MayBeItsApp, resumed_in};

use begin_call::{
    OpenCall, Points, SessionCall, begin_on, closing_points, has_pages_for, open_kept, open_new,
};
use frame_pool::Pages;
use job_model::EntryPoint;
use kernel_state::{Application, Setup, Tables};
use rpc_cont::{CallKind, Cont, Phase};
use session_table::Session;
use ta_params::CallResult;
use ta_params::codes::{TEE_ERROR_BAD_PARAMETERS, TEE_ERROR_OUT_OF_MEMORY, TEE_ERROR_TARGET_DEAD};

/// The turn of a call that waited.
#[derive(Drop)]
pub(crate) struct Turn {
    pub(crate) slot: u8,
    /// It wanted a buffer and was given none.
    pub(crate) without_buffer: bool,
    /// Its application, if the core has that.
    pub(crate) app: Option<Application>,
}

/// Tests a call that waits again. Its session may be gone.
#[tactic(auto, using(crate::proofs::Line::in_session, crate::proofs::Line::pages_beside))]
pub(crate) fn resume_waiting(setup: &Setup, tables: &mut Tables, cont: &mut Cont<Pages>, turn: Turn)
    requires line { IsInLine (booted_of_setup setup.now) (tables_of tables.old) turn.slot cont.old }
    requires app { MayBeItsApp (booted_of_setup setup.now) cont.old turn.app }
    requires pages { HasFreePages setup.now tables.old }
    ensures call { (given : Given) (call : PendingCall) (params : AnyParams) → is_without_buffer given ≡ turn.without_buffer
        → IsWaitingCall cont.old call params → HasCome (tables_of tables.new) cont.new
        (resumes_waiting (resumed_in (booted_of_setup setup.now) (tables_of tables.old) turn.slot given call) params) }
    ensures pages { HasFreePages setup.now tables.new }
{
    match tables.sessions.find(cont.session).copied() {
        Some(session) => test_again(setup, tables, cont, turn, session),
        None => end_with(tables, cont, turn.slot, TEE_ERROR_BAD_PARAMETERS),
    }
}

/// Tests it again in its session: its instance may be dead, on which only a close goes on, and another call may hold it.
#[tactic(auto, using(crate::proofs::Line::on_free, crate::proofs::Line::ready_on, crate::proofs::Line::pages_beside))]
fn test_again(
    setup: &Setup,
    tables: &mut Tables,
    cont: &mut Cont<Pages>,
    turn: Turn,
    session: Session,
)
    requires line { IsInLine (booted_of_setup setup.now) (tables_of tables.old) turn.slot cont.old }
    requires app { MayBeItsApp (booted_of_setup setup.now) cont.old turn.app }
    requires session { get (tables_of tables.old).sessions cont.old.session ≡ Some session }
    requires pages { HasFreePages setup.now tables.old }
    ensures call { (given : Given) (call : PendingCall) (params : AnyParams) → is_without_buffer given ≡ turn.without_buffer
        → IsWaitingCall cont.old call params → HasCome (tables_of tables.new) cont.new
        (tested_again (resumed_in (booted_of_setup setup.now) (tables_of tables.old) turn.slot given call) params session
        (get (tables_of tables.old).instances cont.old.instance)) }
    ensures pages { HasFreePages setup.now tables.new }
{
    let Turn {
        slot,
        without_buffer,
        app,
    } = turn;
    if is_lost(tables, cont) {
        end_with(tables, cont, slot, TEE_ERROR_TARGET_DEAD);
    } else if tables.is_held(cont.instance) {
        sleep_on(tables, cont, slot, without_buffer);
    } else {
        begin_in(setup, tables, cont, SessionTurn { slot, session, app });
    }
}

/// The turn of a call in its session, whose instance no call holds.
#[derive(Drop)]
pub(crate) struct SessionTurn {
    slot: u8,
    session: Session,
    app: Option<Application>,
}

/// Whether its instance is dead, for a call that is no close.
fn is_lost(tables: &Tables, cont: &Cont<Pages>) -> bool
    ensures { result ≡ (option_map_or (λ (instance : AnyInstance). instance.dead) (get (tables_of tables.now).instances cont.now.instance) false
        && not (is_close cont.now.kind)) }
{
    tables.is_dead(cont.instance) && !is_close(cont.kind)
}

fn is_close(kind: CallKind) -> bool
    ensures { result ≡ is_close kind }
{
    matches!(kind, CallKind::Close)
}

/// Sleeps on, where it has a buffer to ask for that.
#[tactic(auto, using(crate::proofs::Line::with_place))]
fn sleep_on(tables: &mut Tables, cont: &mut Cont<Pages>, slot: u8, without_buffer: bool)
    requires line { waits (tables_of tables.old).waiters slot ≡ true }
    requires request { cont.old.request ≡ None }
    ensures call { (boot : Booted) (given : Given) (call : PendingCall) (params : AnyParams) → is_without_buffer given ≡ without_buffer
        → IsWaitingCall cont.old call params
        → HasCome (tables_of tables.new) cont.new (sleeps_on (resumed_in boot (tables_of tables.old) slot given call) params) }
    ensures stays { tables.new ≡ record tables.old { waiters = tables.new.waiters } }
{
    if without_buffer {
        end_with(tables, cont, slot, TEE_ERROR_OUT_OF_MEMORY);
    }
}

/// Begins, by its kind. A call of a session whose instance is gone has lost its session with it.
#[tactic(auto, using(crate::proofs::Line::pages_beside))]
fn begin_in(setup: &Setup, tables: &mut Tables, cont: &mut Cont<Pages>, turn: SessionTurn)
    requires line { IsInLine (booted_of_setup setup.now) (tables_of tables.old) turn.slot cont.old }
    requires app { MayBeItsApp (booted_of_setup setup.now) cont.old turn.app }
    requires session { get (tables_of tables.old).sessions cont.old.session ≡ Some turn.session }
    requires ready { (instance : AnyInstance) → get (tables_of tables.old).instances cont.old.instance ≡ Some instance → CanBeginOn cont.old instance }
    requires pages { HasFreePages setup.now tables.old }
    ensures call { (given : Given) (call : PendingCall) (params : AnyParams) → IsWaitingCall cont.old call params
        → HasCome (tables_of tables.new) cont.new
        (begins_in (resumed_in (booted_of_setup setup.now) (tables_of tables.old) turn.slot given call) params turn.session cont.old.kind
        (get (tables_of tables.old).instances cont.old.instance)) }
    ensures pages { HasFreePages setup.now tables.new }
{
    let SessionTurn { slot, session, app } = turn;
    let Some(app) = app else {
        return end_with(tables, cont, slot, TEE_ERROR_BAD_PARAMETERS);
    };
    match (cont.kind, tables.is_kept(cont.instance)) {
        (CallKind::Open, _) => {
            let login = session.login;
            begin_open(setup, tables, cont, OpenCall { slot, app, login });
        }
        (CallKind::Invoke { func }, true) => {
            let points = Points::only(EntryPoint::Invoke { func });
            begin(
                setup,
                tables,
                cont,
                SessionCall {
                    slot,
                    session,
                    app,
                    points,
                },
            );
        }
        (CallKind::Close, true) => {
            let points = closing_points(tables, &app, cont.session, session);
            begin(
                setup,
                tables,
                cont,
                SessionCall {
                    slot,
                    session,
                    app,
                    points,
                },
            );
        }
        (CallKind::Invoke { .. }, false) => {
            end_with(tables, cont, slot, TEE_ERROR_BAD_PARAMETERS);
        }
        (CallKind::Close, false) => end_with(tables, cont, slot, TEE_ERROR_BAD_PARAMETERS),
        (CallKind::Settled, _) => end_with(tables, cont, slot, TEE_ERROR_BAD_PARAMETERS),
    }
}

/// An open begins on its instance or, where that is gone, on a new one of the same number, under the boot's key.
#[tactic(auto, using(crate::proofs::Begins::ready_for, crate::proofs::Begins::absent_in, crate::proofs::Begins::room_in, crate::proofs::Line::pages_beside))]
fn begin_open(setup: &Setup, tables: &mut Tables, cont: &mut Cont<Pages>, opener: OpenCall)
    requires line { IsInLine (booted_of_setup setup.now) (tables_of tables.old) opener.slot cont.old }
    requires app { IsItsApp (booted_of_setup setup.now) cont.old (application_of opener.app) }
    requires opens { cont.old.kind ≡ CallKind.Open }
    requires ready { (instance : AnyInstance) → get (tables_of tables.old).instances cont.old.instance ≡ Some instance → CanBeginOn cont.old instance }
    requires pages { HasFreePages setup.now tables.old }
    ensures call { (given : Given) (call : PendingCall) (params : AnyParams) → IsWaitingCall cont.old call params
        → HasCome (tables_of tables.new) cont.new
        (begins_open (resumed_in (booted_of_setup setup.now) (tables_of tables.old) opener.slot given call) (brought opener cont.old)
        (get (tables_of tables.old).instances cont.old.instance)) }
    ensures pages { HasFreePages setup.now tables.new }
{
    let number = cont.instance;
    if tables.is_kept(number) {
        tables.waiters.leave(opener.slot);
        cont.key = setup.key;
        open_kept(tables, cont, opener, number);
    } else if has_pages_for(setup, tables, &opener.app) {
        tables.waiters.leave(opener.slot);
        cont.key = setup.key;
        open_new(tables, cont, opener, number);
    } else {
        end_with(tables, cont, opener.slot, TEE_ERROR_OUT_OF_MEMORY);
    }
}

/// Begins in its session, under the boot's key, and waits no more.
fn begin(setup: &Setup, tables: &mut Tables, cont: &mut Cont<Pages>, call: SessionCall)
    requires line { IsInLine (booted_of_setup setup.now) (tables_of tables.old) call.slot cont.old }
    requires app { IsItsApp (booted_of_setup setup.now) cont.old (application_of call.app) }
    requires unsettled { cont.old.kind ≡ CallKind.Settled → ⊥ }
    requires session { get (tables_of tables.old).sessions cont.old.session ≡ Some call.session }
    requires kept { is_some (get (tables_of tables.old).instances cont.old.instance) ≡ true }
    requires ready { (instance : AnyInstance) → get (tables_of tables.old).instances cont.old.instance ≡ Some instance → CanBeginOn cont.old instance }
    requires pages { HasFreePages setup.now tables.old }
    ensures call { (given : Given) (one : PendingCall) (params : AnyParams) (instance : AnyInstance) → IsWaitingCall cont.old one params
        → get (tables_of tables.old).instances cont.old.instance ≡ Some instance
        → (let r = resumed_in (booted_of_setup setup.now) (tables_of tables.old) call.slot given one in
        HasCome (tables_of tables.new) cont.new (begins r (begins_on (who_resumes r) call.session instance params (points_of call.points)))) }
    ensures pages { HasFreePages setup.now tables.new }
{
    tables.waiters.leave(call.slot);
    cont.key = setup.key;
    begin_on(tables, cont, call);
}

/// Ends with this result, which no application returned, and waits no more.
#[tactic(auto, using(crate::proofs::Line::ended))]
fn end_with(tables: &mut Tables, cont: &mut Cont<Pages>, slot: u8, code: u32)
    requires line { waits (tables_of tables.old).waiters slot ≡ true }
    requires request { cont.old.request ≡ None }
    ensures call { (boot : Booted) (given : Given) (call : PendingCall) → IsCall cont.old call
        → HasCome (tables_of tables.new) cont.new (ends_with (resumed_in boot (tables_of tables.old) slot given call) code) }
    ensures stays { tables.new ≡ record tables.old { waiters = tables.new.waiters } }
{
    tables.waiters.leave(slot);
    cont.result = CallResult::of_tee(code);
    cont.params = None;
    cont.phase = Phase::Ends;
    cont.done = false;
}
