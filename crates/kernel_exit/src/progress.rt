//! What a call comes to, with the tables as they then are.
ghost use Rattle.std.specs.Prelude.{◌≡◌, false, true, IsSome};
ghost use Rattle.std.specs.Option.{option_and_then};
ghost use Rattle.base.specs.NumberMap.{get};
ghost use Rattle.kernel_model.specs.Exit.{woken_by};
ghost use Rattle.kernel_model.specs.Kernel.{PendingCall};
ghost use Rattle.kernel_state.specs.Calls.{woken_slot};
ghost use Rattle.kernel_state.specs.Setup.{booted_of_setup};
ghost use Rattle.kernel_state.specs.Tables.{HasFreePages, tables_of};
ghost use Rattle.rpc_cont.specs.Advancing.{phase_after};
ghost use Rattle.kernel_exit.specs.Ending.{CanEnd, ComesOfGrant, ComesOfRest};

use crate::tables_after::{tables_after_end, tables_after_panic, tables_unrun};
use frame_pool::Pages;
use job_model::CallKind;
use kernel_state::{Setup, Tables};
use rpc_cont::{Asked, Cont, ContStop, Phase};
use rpc_msgs::{Payload, Rpc};

/// The slot of the first call that waits for the instance of a call of this kind, where no call holds that.
fn woken_by(tables: &Tables, kind: CallKind, instance: u32) -> Option<u8>
    ensures { (call : PendingCall) → call.instance ≡ instance → result ≡ woken_by (tables_of tables.now) call kind }
{
    match kind {
        CallKind::Settled => None,
        CallKind::Open | CallKind::Invoke { .. } | CallKind::Close => {
            if tables.is_held(instance) {
                return None;
            }
            tables.waiters.first(instance)
        }
    }
}

/// The call asks for the one of a slot to be woken, if one is, and else for nothing. What it asked for, with room for many
/// bytes, is touched only where something changes.
fn asks_wake(cont: &mut Cont<Pages>, woken: Option<u8>)
    ensures wakes { option_and_then (λ asked. woken_slot asked.rpc) cont.new.request ≡ woken }
    ensures stays { cont.new ≡ record cont.old { request = cont.new.request } }
{
    match woken {
        Some(slot) => {
            cont.request = Some(Asked {
                rpc: Rpc::Wake(u32::from(slot)),
                payload: Payload::new(),
            });
        }
        None => {
            if cont.request.is_some() {
                cont.request = None;
            }
        }
    }
}

/// The result of a call is told from now on; whom it wakes is fixed now.
fn shows_result(tables: &Tables, cont: &mut Cont<Pages>)
    ensures wakes { (call : PendingCall) → call.kind ≡ cont.old.kind → call.instance ≡ cont.old.instance
        → option_and_then (λ asked. woken_slot asked.rpc) cont.new.request ≡ woken_by (tables_of tables.now) call call.kind }
    ensures stays { cont.new ≡ record cont.old { request = cont.new.request; done = true } }
{
    let woken = woken_by(tables, cont.kind, cont.instance);
    asks_wake(cont, woken);
    cont.done = true;
}

/// What a call that ran comes to, by why it stopped, or that its steps are used.
pub fn after_grant(setup: &Setup, tables: &mut Tables, cont: &mut Cont<Pages>, why: ContStop)
    requires ends { phase_after why ≡ Phase.Ends → CanEnd (booted_of_setup setup.now) (tables_of tables.old) cont.old }
    requires pages { HasFreePages setup.now tables.old }
    ensures comes { ComesOfGrant (tables_of tables.old) cont.old why cont.new tables.new }
    ensures pages { HasFreePages setup.now tables.new }
{
    match why {
        ContStop::Interrupted | ContStop::Asks => {}
        ContStop::Ended(_) => {
            tables_after_end(setup, tables, cont);
            shows_result(tables, cont);
        }
        ContStop::Panicked(_) => {
            tables_after_panic(setup, tables, cont);
            cont.params = None;
            shows_result(tables, cont);
        }
    }
}

/// What a call that didn't run comes to: one that was settled before shows its result now.
pub fn after_rest(setup: &Setup, tables: &mut Tables, cont: &mut Cont<Pages>)
    requires session { cont.old.phase ≡ Phase.Ends → cont.old.done ≡ false → cont.old.kind ≡ CallKind.Open → IsSome (get (tables_of tables.old).sessions cont.old.session) }
    requires pages { HasFreePages setup.now tables.old }
    ensures comes { ComesOfRest (tables_of tables.old) cont.old cont.new tables.new }
    ensures pages { HasFreePages setup.now tables.new }
{
    match cont.phase {
        Phase::Ends => {
            if !cont.done {
                tables_unrun(setup, tables, cont);
                shows_result(tables, cont);
            }
        }
        Phase::Runs | Phase::Asks | Phase::Waits => {}
    }
}
