//! What a call asks of the tables before it begins.
ghost use Rattle.std.specs.Prelude.{◌≡◌, ◌≤◌, ℕ, true, Some};
ghost use Rattle.std.specs.Option.{option_map};
ghost use Rattle.base.specs.NumberMap.{get};
ghost use Rattle.kernel_model.specs.Application.{pages_in};
ghost use Rattle.kernel_model.specs.Begin.{awaited_number, has_pages_for};
ghost use Rattle.kernel_model.specs.Instances.{shared_instance};
ghost use Rattle.kernel_model.specs.Kernel.{Instance as AnyInstance};
ghost use Rattle.kernel_state.specs.Setup.{application_of, booted_of_setup};
ghost use Rattle.kernel_state.specs.Tables.{HasFreePages, tables_of};
ghost use Rattle.begin_call.specs.Asking.{shown};

use kernel_state::{Application, Setup, Tables};

/// The instance that an open shares, and what is asked of it.
#[derive(Clone, Copy)]
pub struct SharedInstance {
    pub number: u32,
    /// One of its entry points has panicked.
    pub dead: bool,
    /// The slot of the call that holds it.
    pub holder: Option<u8>,
}

/// The instance that an open of the application shares, if it shares one.
pub fn shared_instance(tables: &Tables, app: &Application) -> Option<SharedInstance>
    ensures shared { result ≡ option_map shown (shared_instance (tables_of tables.now).instances (application_of app.now)) }
    ensures kept { (number : ℕ) (instance : AnyInstance) → shared_instance (tables_of tables.now).instances (application_of app.now) ≡ Some (number, instance)
        → get (tables_of tables.now).instances number ≡ Some instance }
{
    if !app.is_single() {
        return None;
    }
    let number = tables.instances.find(&app.uuid())?;
    let instance = tables.instances.get(number)?;
    Some(SharedInstance {
        number,
        dead: instance.dead,
        holder: instance.holder,
    })
}

/// The number of an instance that is gone, for which calls still wait.
pub fn awaited_number(tables: &Tables, app: &Application) -> Option<u32>
    ensures { result ≡ awaited_number (tables_of tables.now) (application_of app.now) }
{
    if !app.is_single() {
        return None;
    }
    tables.waiters.instance_of(&app.uuid())
}

/// There are free pages for a new instance of the application.
pub fn has_pages_for(setup: &Setup, tables: &Tables, app: &Application) -> bool
    requires { HasFreePages setup.now tables.now }
    ensures pages { result ≡ has_pages_for (booted_of_setup setup.now) (tables_of tables.now) (application_of app.now) }
    ensures enough { result ≡ true → pages_in (application_of app.now) ≤ tables.now.pool.free }
{
    app.pages() <= u32::from(tables.pool.free())
}
