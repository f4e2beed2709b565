//! The plan of a new call, applied.
ghost use Rattle.std.specs.Prelude.{◌≡◌, IsSome};
ghost use Rattle.std.specs.Option.{ForSome};
ghost use Rattle.base.specs.NumberMap.{get};
ghost use Rattle.kernel_model.specs.Application.{Booted};
ghost use Rattle.kernel_model.specs.Located.{pins_with};
ghost use Rattle.kernel_state.specs.Setup.{booted_of_setup};
ghost use Rattle.kernel_state.specs.Tables.{HasFreePages, tables_of};
ghost use Rattle.kernel_state.specs.declared.setup.Setup.{Setup as AnySetup};
ghost use Rattle.new_calls.specs.Applying.{CanApply};
ghost use Rattle.new_calls.specs.Deciding.{call_found, call_with, taken_of};
ghost use Rattle.kernel_state.specs.Blanks.{IsBlank};
ghost use Rattle.kernel_entry.specs.Applying.{CanTake, CanTakeFor, IsTaken, meant_by};

use crate::buffers::{drop_buffer, keep_buffer};
use crate::in_session::{apply_close, apply_invoke};
use crate::opening::apply_open;
use crate::settling::{settle, settled_call};
use frame_pool::Pages;
use kernel_state::Tables;
use new_calls::{Entered, Plan};
use rpc_cont::Cont;
use shm_registry::Registry;
use std::alloc::Global;
use ta_params::codes::TEE_SUCCESS;

/// Changes the tables as the plan says, once the slot pins the cookie that names the call's argument, if one does, and
/// makes of a call of which nothing is there yet the one that its slot is taken for. Takes no memory.
pub fn apply(
    alloc: Global,
    tables: &mut Tables,
    entered: &Entered,
    plan: Plan,
    cont: &mut Cont<Pages>,
)
    requires takes { CanTake tables.old entered.now plan }
    requires blank { IsBlank cont.old }
    ensures taken { (boot : Booted) → cont.old.key ≡ boot.key → CanApply (call_with boot (tables_of tables.old) entered.now) plan
        → IsTaken (meant_by entered.now plan) entered.now tables.new cont.new
        (taken_of (call_with boot (tables_of tables.old) entered.now) plan) }
    ensures pages { (setup : AnySetup)
        → CanApply (call_with (booted_of_setup setup) (tables_of tables.old) entered.now) plan
        → HasFreePages setup tables.old → HasFreePages setup tables.new }
{
    pin_argument(&mut tables.registry, entered);
    apply_plan(alloc, tables, entered, plan, cont);
}

/// The slot pins the cookie that names the call's argument, if one does.
fn pin_argument(registry: &mut Registry, entered: &Entered)
    requires { ForSome entered.now.cookie (λ cookie. IsSome (get registry.old.buffers cookie)) }
    ensures { registry.new ≡ record registry.old { pins = pins_with entered.now.cookie registry.old.pins entered.now.slot } }
{
    if let Some(cookie) = entered.cookie {
        registry.pin(cookie, entered.slot);
    }
}

/// Applies the plan, once that cookie is pinned.
fn apply_plan(
    alloc: Global,
    tables: &mut Tables,
    entered: &Entered,
    plan: Plan,
    cont: &mut Cont<Pages>,
)
    requires takes { CanTakeFor tables.old entered.now plan }
    requires blank { IsBlank cont.old }
    ensures taken { (boot : Booted) → cont.old.key ≡ boot.key → CanApply (call_found boot (tables_of tables.old) entered.now) plan
        → IsTaken (meant_by entered.now plan) entered.now tables.new cont.new
        (taken_of (call_found boot (tables_of tables.old) entered.now) plan) }
    ensures pages { (setup : AnySetup)
        → CanApply (call_found (booted_of_setup setup) (tables_of tables.old) entered.now) plan
        → HasFreePages setup tables.old → HasFreePages setup tables.new }
{
    match plan {
        Plan::Settles(settled) => settle(alloc, cont, entered, &settled),
        Plan::Opens { app, login, copies } => apply_open(tables, entered, app, login, copies, cont),
        Plan::Invokes {
            session,
            app,
            copies,
        } => apply_invoke(tables, entered, session, app, copies, cont),
        Plan::Closes { session, app } => apply_close(alloc, tables, entered, session, app, cont),
        Plan::Cancels => settled_call(alloc, cont, entered, entered.head.session, TEE_SUCCESS),
        Plan::KeepsBuffer { cookie, buffer } => {
            keep_buffer(&mut tables.registry, cookie, buffer);
            settled_call(alloc, cont, entered, 0, TEE_SUCCESS);
        }
        Plan::DropsBuffer { cookie } => {
            drop_buffer(&mut tables.registry, cookie);
            settled_call(alloc, cont, entered, 0, TEE_SUCCESS);
        }
    }
}
