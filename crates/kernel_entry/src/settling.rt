//! Calls that are settled at their entry.
ghost use Rattle.std.specs.Prelude.{◌≡◌, List, ℕ, Option};
ghost use Rattle.kernel_model.specs.Application.{Booted};
ghost use Rattle.kernel_model.specs.Kernel.{SettledCall, Tables as AnyTables};
ghost use Rattle.kernel_model.specs.NewCall.{settled_call};
ghost use Rattle.kernel_state.specs.Calls.{IsCall};
ghost use Rattle.new_calls.specs.Deciding.{call_found, settled_of};
ghost use Rattle.kernel_state.specs.Blanks.{IsBlank};
ghost use Rattle.kernel_entry.specs.Applying.{HasItsLogin, IsNoOpen};

use crate::filling::fill_ended;
use arrayvec::ArrayVec;
use frame_pool::Pages;
use job_model::CallKind;
use new_calls::{Entered, Settled};
use rpc_cont::{CallEntry, Cont};
use std::alloc::Global;
use ta_params::{CallResult, Login};

/// What a call is settled with at its entry.
#[derive(Drop)]
struct Settling {
    /// Its session, 0 where it has none.
    session: u32,
    /// The login that an open's argument named.
    login: Login,
    code: u32,
}

/// A call that is settled with this, which no application returned.
#[tactic(auto, using(crate::proofs::SettledCalls::login_named))]
fn settled_with(alloc: Global, cont: &mut Cont<Pages>, entered: &Entered, settling: Settling)
    requires { IsBlank cont.old }
    ensures { (boot : Booted) (tables : AnyTables) (settled : SettledCall) (uuid : Option (List ℕ))
        → HasItsLogin settling.login settled → IsCall cont.new
        (record (settled_call (call_found boot tables entered.now) settling.code)
        { settled = settled; uuid = uuid; session = settling.session }) }
{
    let Settling {
        session,
        login,
        code,
    } = settling;
    fill_ended(
        cont,
        CallEntry {
            client: entered.client,
            kind: CallKind::Settled,
            login,
            context: 0,
            params: None,
            arg: entered.arg,
            area: entered.area,
            places: ArrayVec::new_in(alloc),
            session,
            instance: 0,
        },
        CallResult::of_tee(code),
    );
}

/// A call in this session, other than an open, that is settled with this result, which no application returned.
pub(crate) fn settled_call(
    alloc: Global,
    cont: &mut Cont<Pages>,
    entered: &Entered,
    session: u32,
    code: u32,
)
    requires { IsBlank cont.old }
    ensures { (boot : Booted) (tables : AnyTables) (settled : SettledCall) (uuid : Option (List ℕ))
        → IsNoOpen settled → IsCall cont.new
        (record (settled_call (call_found boot tables entered.now) code)
        { settled = settled; uuid = uuid; session = session }) }
{
    let login = Login::public();
    settled_with(
        alloc,
        cont,
        entered,
        Settling {
            session,
            login,
            code,
        },
    );
}

/// A call that a test has settled.
pub(crate) fn settle(alloc: Global, cont: &mut Cont<Pages>, entered: &Entered, settled: &Settled)
    requires { IsBlank cont.old }
    ensures { (boot : Booted) (tables : AnyTables)
        → IsCall cont.new (settled_of (call_found boot tables entered.now) settled.now).call }
{
    match settled {
        Settled::Call(code) => settled_call(alloc, cont, entered, 0, *code),
        Settled::Open(_, login, code) => {
            let settling = Settling {
                session: 0,
                login: *login,
                code: *code,
            };
            settled_with(alloc, cont, entered, settling);
        }
        Settled::Invoke(code) => {
            settled_call(alloc, cont, entered, entered.head.session, *code);
        }
    }
}
