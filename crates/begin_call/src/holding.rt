//! Instances that a call comes to hold.
ghost use Rattle.std.specs.Prelude.{◌≡◌, ◌<◌, ◌≤◌, ◌-◌, [], Some, None, length};
ghost use Rattle.std.specs.Option.{IsSomeAnd};
ghost use Rattle.base.specs.NumberMap.{IsRising, get};
ghost use Rattle.kernel_model.specs.Application.{Booted, pages_in, uuid_of};
ghost use Rattle.kernel_model.specs.Begin.{with_instance};
ghost use Rattle.kernel_model.specs.Instances.{free_pages, fresh_memory, held_by, made_for, pages_of};
ghost use Rattle.kernel_model.specs.Kernel.{Instance as AnyInstance};
ghost use Rattle.rpc_cont.specs.Conts.{kept_memory};
ghost use Rattle.kernel_state.specs.Calls.{bytes_of};
ghost use Rattle.kernel_state.specs.Setup.{application_of};
ghost use Rattle.kernel_state.specs.Tables.{tables_of};

use frame_pool::{Pages, Pool};
use kernel_state::{Application, Tables};
use tee_storage::Handles;

/// Lets the call of a slot hold a kept instance: gives its memory, and moves its open objects into those of the call.
pub(crate) fn hold(
    tables: &mut Tables,
    number: u32,
    slot: u8,
    objects: &mut Handles,
) -> Option<Pages>
    requires free { IsSomeAnd (get (tables_of tables.old).instances number) (λ instance. instance.holder ≡ None) }
    requires rising { IsRising (tables_of tables.old).instances }
    ensures tables { (instance : AnyInstance) → get (tables_of tables.old).instances number ≡ Some instance
        → tables_of tables.new ≡ with_instance (tables_of tables.old) number (held_by slot instance) }
    ensures memory { (instance : AnyInstance) → get (tables_of tables.old).instances number ≡ Some instance
        → kept_memory bytes_of result ≡ instance.memory }
    ensures objects { (instance : AnyInstance) → get (tables_of tables.old).instances number ≡ Some instance → objects.new ≡ instance.objects }
    ensures pages { (boot : Booted) → free_pages boot (tables_of tables.new).instances ≡ free_pages boot (tables_of tables.old).instances }
    ensures pool { tables.new.pool ≡ tables.old.pool }
{
    tables.instances.hold_into(number, slot, objects)
}

/// The pages of a new instance of the application.
fn fresh_pages(pool: &mut Pool, app: &Application) -> Option<Pages>
    requires few { pages_in (application_of app.now) ≤ 64 }
    requires free { pages_in (application_of app.now) ≤ pool.old.free }
    ensures zeros { kept_memory bytes_of result ≡ fresh_memory (pages_in (application_of app.now)) }
    ensures pool { pool.new ≡ record pool.old { free = pool.old.free - pages_in (application_of app.now) } }
{
    match app {
        Application::OfImage(shared) => {
            let Ok(pages) = pool.take(shared.image.pages as u16) else {
                unreachable!();
            };
            Some(pages)
        }
        Application::BuiltIn(_) => None,
    }
}

/// Makes an instance of the application that the call of a slot holds: gives its memory, and moves its open objects, of
/// which there are none, into those of the call.
pub(crate) fn make(
    tables: &mut Tables,
    number: u32,
    app: &Application,
    slot: u8,
    objects: &mut Handles,
) -> Option<Pages>
    requires few { pages_in (application_of app.now) ≤ 64 }
    requires free { pages_in (application_of app.now) ≤ tables.old.pool.free }
    requires absent { get (tables_of tables.old).instances number ≡ None }
    requires room { length (tables_of tables.old).instances < 80 }
    ensures tables { tables_of tables.new ≡ with_instance (tables_of tables.old) number (made_for (uuid_of (application_of app.now)) slot) }
    ensures memory { kept_memory bytes_of result ≡ fresh_memory (pages_in (application_of app.now)) }
    ensures objects { objects.new ≡ [] }
    ensures pages { (boot : Booted) → free_pages boot (tables_of tables.new).instances
        ≡ free_pages boot (tables_of tables.old).instances - pages_of boot (uuid_of (application_of app.now)) }
    ensures pool { tables.new.pool ≡ record tables.old.pool { free = tables.old.pool.free - pages_in (application_of app.now) } }
{
    let memory = fresh_pages(&mut tables.pool, app);
    tables.instances.make(number, app.uuid(), memory);
    tables.instances.hold_into(number, slot, objects)
}
