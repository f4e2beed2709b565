//! Calls that wait for an instance that another call holds.
ghost use Rattle.std.specs.Prelude.{◌≡◌, ◌<◌, false, Some};
ghost use Rattle.begin_call.specs.Begins.{who_begins};
ghost use Rattle.kernel_model.specs.Application.{Booted, uuid_of as uuid_of_app};
ghost use Rattle.kernel_state.specs.Setup.{application_of};
ghost use Rattle.kernel_state.specs.Tables.{HasFreePages};
ghost use Rattle.kernel_state.specs.declared.setup.Setup.{Setup as AnySetup};
ghost use Rattle.rpc_cont.specs.Conts.{kept_params, uuid_of};
ghost use Rattle.session_table.specs.Waiters.{waits};
ghost use Rattle.kernel_entry.specs.Applying.{HasCome, IsNew, queued};

use frame_pool::Pages;
use kernel_state::{Application, SharedApp, Tables};
use rpc_cont::{Cont, ContApp};

/// The application, as a call that waits keeps it.
fn kept_app(app: Application) -> ContApp
    ensures { uuid_of (Some result) ≡ uuid_of_app (application_of app) }
{
    match app {
        Application::OfImage(SharedApp { uuid, image }) => ContApp::Image { uuid, image },
        Application::BuiltIn(native) => ContApp::Native(native),
    }
}

/// Lets the call of a slot wait for the instance, behind those that wait already.
pub(crate) fn join_line(
    tables: &mut Tables,
    cont: &mut Cont<Pages>,
    app: Application,
    number: u32,
    slot: u8,
)
    requires call { IsNew cont.old }
    requires slot { slot < 16 }
    requires absent { waits tables.old.waiters slot ≡ false }
    ensures came { (boot : Booted) → HasCome tables.new cont.old cont.new (uuid_of_app (application_of app))
        (queued (who_begins boot tables.old slot cont.old) number (uuid_of_app (application_of app))
        (kept_params cont.old.params)) }
    ensures pages { (setup : AnySetup) → HasFreePages setup tables.old → HasFreePages setup tables.new }
{
    tables.waiters.join(number, app.uuid(), slot);
    cont.instance = number;
    cont.app = Some(kept_app(app));
}
