//! An open that begins.
ghost use Rattle.std.specs.Prelude.{◌≡◌, ◌<◌, ◌≤◌, Some, None, length};
ghost use Rattle.std.specs.Option.{IsSomeAnd};
ghost use Rattle.base.specs.NumberMap.{IsRising, get};
ghost use Rattle.kernel_model.specs.Application.{Booted, pages_in, uuid_of};
ghost use Rattle.kernel_model.specs.Begin.{opens_kept, opens_made, opens_new};
ghost use Rattle.kernel_model.specs.Instances.{app_of};
ghost use Rattle.kernel_model.specs.Kernel.{Instance as AnyInstance};
ghost use Rattle.kernel_state.specs.Setup.{application_of, booted_of_setup};
ghost use Rattle.kernel_state.specs.Tables.{HasFreePages, tables_of};
ghost use Rattle.kernel_state.specs.declared.setup.Setup.{Setup as AnySetup};
ghost use Rattle.begin_call.specs.Begins.{CanBegin, HasBegun, IsReadyFor, IsValidApp, brought, new_number, number_behind, who_begins};

use crate::asking::awaited_number;
use crate::found::{InstanceFound, start};
use crate::holding::{hold, make};
use crate::points::{Points, destroy_after};
use frame_pool::Pages;
use kernel_state::{Application, Tables};
use rpc_cont::Cont;
use ta_params::Login;

/// An open that begins: its slot, its application, and who opens.
#[derive(Drop)]
pub struct OpenCall {
    pub slot: u8,
    pub app: Application,
    pub login: Login,
}

/// Begins on a kept instance.
pub fn open_kept(tables: &mut Tables, cont: &mut Cont<Pages>, call: OpenCall, number: u32)
    requires valid { IsValidApp (application_of call.app) }
    requires fresh { CanBegin cont.old }
    requires rising { IsRising (tables_of tables.old).instances }
    requires kept { IsSomeAnd (get (tables_of tables.old).instances number) (IsReadyFor (application_of call.app)) }
    ensures begins { (boot : Booted) (instance : AnyInstance) → get (tables_of tables.old).instances number ≡ Some instance
        → HasBegun tables.new cont.old cont.new (uuid_of (application_of call.app))
        (opens_kept (who_begins boot tables.old call.slot cont.old) (brought call cont.old) (number, instance)) }
    ensures pages { (setup : AnySetup) → HasFreePages setup tables.old → HasFreePages setup tables.new }
{
    let OpenCall { slot, app, login } = call;
    let unmakes = destroy_after(&app, &tables.sessions, number);
    let memory = hold(tables, number, slot, &mut cont.objects);
    cont.login = login;
    cont.context = 0;
    cont.instance = number;
    let found = InstanceFound {
        uuid: app.uuid(),
        program: Some(app),
        memory,
        points: Points::opening(false, unmakes),
    };
    start(cont, found);
}

/// Begins on a new instance of this number, which is created first. Its pages come from the pool.
pub fn open_new(tables: &mut Tables, cont: &mut Cont<Pages>, call: OpenCall, number: u32)
    requires valid { IsValidApp (application_of call.app) }
    requires fresh { CanBegin cont.old }
    requires pages { pages_in (application_of call.app) ≤ tables.old.pool.free }
    requires absent { get (tables_of tables.old).instances number ≡ None }
    requires room { length (tables_of tables.old).instances < 80 }
    ensures begins { (boot : Booted) → HasBegun tables.new cont.old cont.new (uuid_of (application_of call.app))
        (opens_new (who_begins boot tables.old call.slot cont.old) (brought call cont.old) number (tables_of tables.old).next_instance) }
    ensures pages { (setup : AnySetup) → app_of (booted_of_setup setup) (uuid_of (application_of call.app)) ≡ Some (application_of call.app)
        → HasFreePages setup tables.old → HasFreePages setup tables.new }
{
    let OpenCall { slot, app, login } = call;
    let unmakes = destroy_after(&app, &tables.sessions, number);
    let memory = make(tables, number, &app, slot, &mut cont.objects);
    cont.login = login;
    cont.context = 0;
    cont.instance = number;
    let found = InstanceFound {
        uuid: app.uuid(),
        program: Some(app),
        memory,
        points: Points::opening(true, unmakes),
    };
    start(cont, found);
}

/// Begins on a new instance: it has the number for which calls still wait, so that they find it, and else the next one.
pub fn open_made(tables: &mut Tables, cont: &mut Cont<Pages>, call: OpenCall)
    requires valid { IsValidApp (application_of call.app) }
    requires fresh { CanBegin cont.old }
    requires pages { pages_in (application_of call.app) ≤ tables.old.pool.free }
    requires absent { get (tables_of tables.old).instances (new_number (tables_of tables.old) (application_of call.app)) ≡ None }
    requires room { length (tables_of tables.old).instances < 80 }
    requires number { (tables_of tables.old).next_instance < 4294967296 }
    ensures begins { (boot : Booted) → HasBegun tables.new cont.old cont.new (uuid_of (application_of call.app))
        (opens_made (who_begins boot tables.old call.slot cont.old) (brought call cont.old)) }
    ensures pages { (setup : AnySetup) → app_of (booted_of_setup setup) (uuid_of (application_of call.app)) ≡ Some (application_of call.app)
        → HasFreePages setup tables.old → HasFreePages setup tables.new }
{
    let number = number_for(tables, &call.app);
    open_new(tables, cont, call, number);
}

/// The number of a new instance of the application: the one for which calls wait, and else the next, which is given.
fn number_for(tables: &mut Tables, app: &Application) -> u32
    requires { (tables_of tables.old).next_instance < 4294967296 }
    ensures number { result ≡ new_number (tables_of tables.old) (application_of app.now) }
    ensures behind { (tables_of tables.new).next_instance ≡ number_behind (tables_of tables.old) (application_of app.now) }
    ensures stays { tables.new ≡ record tables.old { instances_made = tables.new.instances_made } }
{
    match awaited_number(tables, app) {
        Some(number) => number,
        None => {
            tables.instances_made += 1;
            tables.instances_made
        }
    }
}
