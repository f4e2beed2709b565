//! An invoke or a close that begins.
ghost use Rattle.std.specs.Prelude.{◌≡◌, None, Some, if◌then◌else◌};
ghost use Rattle.std.specs.Option.{IsSomeAnd};
ghost use Rattle.base.specs.NumberMap.{IsRising, get};
ghost use Rattle.kernel_model.specs.Application.{Booted};
ghost use Rattle.kernel_model.specs.Begin.{begins_on};
ghost use Rattle.kernel_model.specs.Instances.{app_of};
ghost use Rattle.kernel_model.specs.Kernel.{Instance as AnyInstance};
ghost use Rattle.kernel_state.specs.Setup.{application_of};
ghost use Rattle.kernel_state.specs.Tables.{HasFreePages, tables_of};
ghost use Rattle.kernel_state.specs.declared.setup.Setup.{Setup as AnySetup};
ghost use Rattle.rpc_cont.specs.Conts.{kept_params};
ghost use Rattle.begin_call.specs.Begins.{CanBegin, HasBegun, IsReady, IsValidApp, who_begins};
ghost use Rattle.begin_call.specs.Points.{points_of};

use crate::found::{InstanceFound, start};
use crate::holding::hold;
use crate::points::Points;
use frame_pool::Pages;
use kernel_state::{Application, Tables};
use rpc_cont::Cont;
use session_table::Session;
use ta_instances::Instance;

/// A call in an opened session, as it begins: its slot, its session, the application of that, and its entry points.
#[derive(Drop)]
pub struct SessionCall {
    pub slot: u8,
    pub session: Session,
    pub app: Application,
    pub points: Points,
}

/// What a call begins on on a kept instance of the application: nothing on a dead one.
fn program_on(instance: &Instance, app: Application) -> Option<Application>
    ensures { result ≡ (if instance.now.dead then None else Some app) }
{
    if instance.dead { None } else { Some(app) }
}

/// Begins on the session's instance.
pub fn begin_on(tables: &mut Tables, cont: &mut Cont<Pages>, call: SessionCall)
    requires valid { IsValidApp (application_of call.app) }
    requires fresh { CanBegin cont.old }
    requires rising { IsRising (tables_of tables.old).instances }
    requires kept { IsSomeAnd (get (tables_of tables.old).instances call.session.instance) (IsReady (application_of call.app)) }
    ensures begins { (boot : Booted) (instance : AnyInstance) → get (tables_of tables.old).instances call.session.instance ≡ Some instance
        → app_of boot instance.uuid ≡ Some (application_of call.app)
        → HasBegun tables.new cont.old cont.new instance.uuid (begins_on (who_begins boot tables.old call.slot cont.old)
        call.session instance (kept_params cont.old.params) (points_of call.points)) }
    ensures pages { (setup : AnySetup) → HasFreePages setup tables.old → HasFreePages setup tables.new }
{
    let SessionCall {
        slot,
        session,
        app,
        points,
    } = call;
    let number = session.instance;
    let Some(instance) = tables.instances.get(number) else {
        unreachable!();
    };
    let uuid = instance.uuid;
    let program = program_on(instance, app);
    let memory = hold(tables, number, slot, &mut cont.objects);
    cont.login = session.login;
    cont.context = session.context;
    cont.instance = number;
    let found = InstanceFound {
        uuid,
        program,
        memory,
        points,
    };
    start(cont, found);
}
