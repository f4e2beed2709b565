//! What the end of a call makes of the tables.
ghost use Rattle.std.specs.Prelude.{◌≡◌, [], None, IsSome};
ghost use Rattle.base.specs.NumberMap.{get};
ghost use Rattle.kernel_model.specs.Exit.{tables_after_end, tables_after_panic, tables_unrun};
ghost use Rattle.kernel_model.specs.Kernel.{PendingCall};
ghost use Rattle.kernel_state.specs.Calls.{bytes_of};
ghost use Rattle.kernel_state.specs.Setup.{booted_of_setup};
ghost use Rattle.kernel_state.specs.Tables.{HasFreePages, tables_of};
ghost use Rattle.rpc_cont.specs.Conts.{end_left};
ghost use Rattle.kernel_exit.specs.Ending.{CanEnd, IsOf};

use crate::instances::{give_back, give_back_dead};
use crate::sessions::{sessions_after, sessions_after_panic, sessions_unrun};
use frame_pool::Pages;
use job_model::CallKind;
use kernel_state::{Setup, Tables};
use rpc_cont::Cont;

/// After the job of a call has ended.
pub fn tables_after_end(setup: &Setup, tables: &mut Tables, cont: &mut Cont<Pages>)
    requires ends { CanEnd (booted_of_setup setup.now) (tables_of tables.old) cont.old }
    requires pages { HasFreePages setup.now tables.old }
    ensures tables { (call : PendingCall) → IsOf cont.old call → tables_of tables.new
        ≡ tables_after_end (tables_of tables.old) call (end_left bytes_of cont.old) }
    ensures pages { HasFreePages setup.now tables.new }
    ensures stays { cont.new ≡ record cont.old { memory = None; objects = [] } }
{
    let result = cont.result.result;
    sessions_after(
        &mut tables.sessions,
        cont.kind,
        cont.session,
        result,
        cont.context,
    );
    let is_last = cont.ends_instance();
    let memory = cont.memory.take();
    give_back(
        setup,
        tables,
        cont.instance,
        is_last,
        memory,
        &mut cont.objects,
    );
}

/// After it has panicked, in any entry point: its instance is dead.
pub fn tables_after_panic(setup: &Setup, tables: &mut Tables, cont: &mut Cont<Pages>)
    requires ends { CanEnd (booted_of_setup setup.now) (tables_of tables.old) cont.old }
    requires pages { HasFreePages setup.now tables.old }
    ensures tables { (call : PendingCall) → IsOf cont.old call → tables_of tables.new
        ≡ tables_after_panic (tables_of tables.old) call }
    ensures pages { HasFreePages setup.now tables.new }
    ensures stays { cont.new ≡ record cont.old { memory = None } }
{
    sessions_after_panic(&mut tables.sessions, cont.kind, cont.session);
    let memory = cont.memory.take();
    give_back_dead(setup, tables, cont.instance, memory);
}

/// After it has ended without having run.
pub fn tables_unrun(setup: &Setup, tables: &mut Tables, cont: &Cont<Pages>)
    requires session { cont.now.kind ≡ CallKind.Open → IsSome (get (tables_of tables.old).sessions cont.now.session) }
    requires pages { HasFreePages setup.now tables.old }
    ensures tables { (call : PendingCall) → IsOf cont.now call → tables_of tables.new
        ≡ tables_unrun (tables_of tables.old) call }
    ensures pages { HasFreePages setup.now tables.new }
{
    sessions_unrun(&mut tables.sessions, cont.kind, cont.session);
}
