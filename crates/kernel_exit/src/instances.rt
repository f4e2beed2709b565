//! What the end of a call makes of its instance, and its pages.
ghost use Rattle.std.specs.Prelude.{◌≡◌, ◌+◌, ◌-◌, ◌≤◌, ◌&&◌, ◌||◌, [], false, not, length};
ghost use Rattle.frame_pool.specs.Pages.{page_count};
ghost use Rattle.kernel_model.specs.Exit.{gives_back};
ghost use Rattle.kernel_model.specs.Instances.{given_back, killed};
ghost use Rattle.kernel_model.specs.Kernel.{PendingCall};
ghost use Rattle.kernel_model.specs.Sessions.{has_opened};
ghost use Rattle.kernel_state.specs.Calls.{bytes_of};
ghost use Rattle.kernel_state.specs.Setup.{booted_of_setup};
ghost use Rattle.kernel_state.specs.Tables.{HasFreePages, tables_of};
ghost use Rattle.rpc_cont.specs.Conts.{kept_memory};
ghost use Rattle.kernel_exit.specs.Ending.{CanBeGivenBack, CanBeRemoved, with_changed, without_instance};

use crate::sessions::has_opened;
use frame_pool::{Pages, Pool};
use kernel_state::{Setup, Tables};
use ta_instances::Handles;

/// Gives an instance's pages back, if it has any.
fn release(pool: &mut Pool, memory: Option<Pages>)
    requires { page_count (kept_memory bytes_of memory) ≤ pool.old.frames - pool.old.free }
    ensures { pool.new ≡ record pool.old { free = pool.old.free + page_count (kept_memory bytes_of memory) } }
{
    if let Some(pages) = memory {
        pool.release(pages);
    }
}

/// Takes an instance away that no call holds. Its pages go back to the pool.
fn remove_instance(setup: &Setup, tables: &mut Tables, number: u32)
    requires free { CanBeRemoved (booted_of_setup setup.now) (tables_of tables.old).instances number }
    requires pages { HasFreePages setup.now tables.old }
    ensures tables { tables_of tables.new ≡ without_instance (tables_of tables.old) number }
    ensures pages { HasFreePages setup.now tables.new }
{
    let memory = tables.instances.remove(number);
    release(&mut tables.pool, memory);
}

/// Puts memory and open objects of an instance back, and no call holds it. A dead one has no pages, and keeps no memory.
fn put_back(
    setup: &Setup,
    tables: &mut Tables,
    number: u32,
    memory: Option<Pages>,
    objects: &mut Handles,
)
    requires held { CanBeGivenBack (booted_of_setup setup.now) (tables_of tables.old).instances number (length (kept_memory bytes_of memory)) }
    requires pages { HasFreePages setup.now tables.old }
    ensures tables { tables_of tables.new ≡ with_changed (tables_of tables.old) number (given_back (kept_memory bytes_of memory) objects.old) }
    ensures objects { objects.new ≡ [] }
    ensures pages { HasFreePages setup.now tables.new }
    ensures free { CanBeRemoved (booted_of_setup setup.now) (tables_of tables.new).instances number }
{
    if tables.is_dead(number) {
        release(&mut tables.pool, memory);
        tables.instances.give_back_from(number, None, objects);
    } else {
        tables.instances.give_back_from(number, memory, objects);
    }
}

/// Puts an instance back of which nothing is left: it is dead. Its pages go back to the pool.
fn put_back_dead(setup: &Setup, tables: &mut Tables, number: u32, memory: Option<Pages>)
    requires held { CanBeGivenBack (booted_of_setup setup.now) (tables_of tables.old).instances number (length (kept_memory bytes_of memory)) }
    requires pages { HasFreePages setup.now tables.old }
    ensures tables { tables_of tables.new ≡ with_changed (tables_of tables.old) number killed }
    ensures pages { HasFreePages setup.now tables.new }
    ensures free { CanBeRemoved (booted_of_setup setup.now) (tables_of tables.new).instances number }
{
    tables.instances.kill(number);
    release(&mut tables.pool, memory);
}

/// Whether an instance is removed as its call gives it back: at its end, and where it is dead and none of its sessions is
/// opened.
fn is_removed(tables: &Tables, number: u32, is_last: bool, is_dead: bool) -> bool
    ensures { result ≡ (is_last || (is_dead && not (has_opened (tables_of tables.now).sessions number))) }
{
    is_last || is_dead && !has_opened(&tables.sessions, number)
}

/// A call gives its instance back. It is removed at its end, and where it is dead and none of its sessions is opened.
pub(crate) fn give_back(
    setup: &Setup,
    tables: &mut Tables,
    number: u32,
    is_last: bool,
    memory: Option<Pages>,
    objects: &mut Handles,
)
    requires held { CanBeGivenBack (booted_of_setup setup.now) (tables_of tables.old).instances number (length (kept_memory bytes_of memory)) }
    requires pages { HasFreePages setup.now tables.old }
    ensures tables { (call : PendingCall) → call.instance ≡ number → tables_of tables.new
        ≡ gives_back (tables_of tables.old) call (tables_of tables.old).sessions is_last (given_back (kept_memory bytes_of memory) objects.old) }
    ensures objects { objects.new ≡ [] }
    ensures pages { HasFreePages setup.now tables.new }
{
    let is_dead = tables.is_dead(number);
    let goes = is_removed(tables, number, is_last, is_dead);
    put_back(setup, tables, number, memory, objects);
    if goes {
        remove_instance(setup, tables, number);
    }
}

/// A call that has panicked gives its instance back, which is dead.
pub(crate) fn give_back_dead(setup: &Setup, tables: &mut Tables, number: u32, memory: Option<Pages>)
    requires held { CanBeGivenBack (booted_of_setup setup.now) (tables_of tables.old).instances number (length (kept_memory bytes_of memory)) }
    requires pages { HasFreePages setup.now tables.old }
    ensures tables { (call : PendingCall) → call.instance ≡ number → tables_of tables.new
        ≡ gives_back (tables_of tables.old) call (tables_of tables.old).sessions false killed }
    ensures pages { HasFreePages setup.now tables.new }
{
    let goes = is_removed(tables, number, false, true);
    put_back_dead(setup, tables, number, memory);
    if goes {
        remove_instance(setup, tables, number);
    }
}
