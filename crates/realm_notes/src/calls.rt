//! What a new call is, whoever's it is.
ghost use Rattle.std.specs.Prelude.{◌≡◌, IfOk};
ghost use Rattle.realm_notes.specs.Calls.{call_by, invoke_input, open_input, planned_call, settled_open};
ghost use Rattle.kernel_state.specs.Setup.{application_of};

use base::NoMemory;
use kernel_entry::PlannedCall;
use kernel_state::Application;
use new_calls::{Plan, Settled};
use own_model::OwnInput;
use ta_params::Login;
use ta_params::codes::{TEE_ERROR_BAD_PARAMETERS, TEE_ERROR_OUT_OF_MEMORY, TEE_ERROR_TARGET_DEAD};
use uuid::Uuid;

/// An open of an application, whatever its later tests came to.
#[derive(Drop)]
pub(crate) struct NewOpen {
    /// By which it names the application.
    pub(crate) uuid: Uuid,
    /// What came of its parameters: they are unread where a dead instance, a session that has the instance alone, or a shared limit
    /// stopped it.
    pub(crate) input: OwnInput,
    pub(crate) login: Login,
    /// Whether a shared limit stopped it.
    pub(crate) limited: bool,
    /// Whether it has an area for the arguments of its requests.
    pub(crate) area: bool,
    /// Whether it gets a session.
    pub(crate) reserves: bool,
}

/// A new call in a session. Of each but a cancel `area` says whether it has an area for the arguments of its requests.
#[derive(Drop)]
pub(crate) enum SessionCall {
    /// An invoke of a function.
    Invoke {
        func: u32,
        input: OwnInput,
        area: bool,
    },
    Close {
        area: bool,
    },
    Cancel,
}

/// A new call of an application or of a session.
#[derive(Drop)]
pub(crate) enum ArrivingCall {
    Opens(NewOpen),
    InSession(SessionCall),
}

/// What came of the parameters of an invoke that was settled with this code.
fn invoke_input(code: u32) -> OwnInput
    ensures { result ≡ invoke_input code }
{
    if code == TEE_ERROR_TARGET_DEAD {
        OwnInput::Unread
    } else {
        OwnInput::Faulty
    }
}

/// What came of the parameters of an open that was settled with this code.
fn open_input(code: u32) -> OwnInput
    ensures { result ≡ open_input code }
{
    if code == TEE_ERROR_BAD_PARAMETERS {
        OwnInput::Faulty
    } else {
        OwnInput::Unread
    }
}

/// An open that a test has settled with this code.
fn settled_open(app: &Application, login: Login, code: u32, area: bool) -> NewOpen
    ensures { result ≡ settled_open (application_of app.now) login code area }
{
    NewOpen {
        uuid: app.uuid(),
        input: open_input(code),
        login,
        limited: code == TEE_ERROR_OUT_OF_MEMORY,
        area,
        reserves: false,
    }
}

/// What a new call is, by what its slot is taken for; the function is the one that its argument names, and it has an area or
/// not.
fn call_by(func: u32, area: bool, plan: &Plan) -> Result<Option<ArrivingCall>, NoMemory>
    ensures { IfOk result (λ call. call ≡ call_by func area plan.now) }
{
    match plan {
        Plan::Settles(Settled::Open(app, login, code)) => {
            Ok(Some(ArrivingCall::Opens(settled_open(app, *login, *code, area))))
        }
        Plan::Settles(Settled::Invoke(code)) => Ok(Some(ArrivingCall::InSession(
            SessionCall::Invoke {
                func,
                input: invoke_input(*code),
                area,
            },
        ))),
        Plan::Opens { app, login, copies } => {
            let params = copies.params.clone()?;
            Ok(Some(ArrivingCall::Opens(NewOpen {
                uuid: app.uuid(),
                input: OwnInput::Copied(params),
                login: *login,
                limited: false,
                area,
                reserves: true,
            })))
        }
        Plan::Invokes { copies, .. } => {
            let params = copies.params.clone()?;
            Ok(Some(ArrivingCall::InSession(SessionCall::Invoke {
                func,
                input: OwnInput::Copied(params),
                area,
            })))
        }
        Plan::Closes { .. } => Ok(Some(ArrivingCall::InSession(SessionCall::Close { area }))),
        Plan::Cancels => Ok(Some(ArrivingCall::InSession(SessionCall::Cancel))),
        Plan::Settles(Settled::Call(_)) | Plan::KeepsBuffer { .. } | Plan::DropsBuffer { .. } => {
            Ok(None)
        }
    }
}

/// What a new call is that is planned: `None` of one that is of no application and no session.
pub(crate) fn planned_call(planned: &PlannedCall) -> Result<Option<ArrivingCall>, NoMemory>
    ensures { IfOk result (λ call. call ≡ planned_call planned.now) }
{
    let entered = &planned.entered;
    call_by(entered.head.func, entered.area.is_some(), &planned.plan)
}
