ghost use Rattle.std.specs.Prelude.{◌≤◌, IfOk, List, length};
ghost use Rattle.kernel_model.specs.Argument.{invocation};
ghost use Rattle.kernel_model.specs.NewCall.{invoke_command};
ghost use Rattle.kernel_state.specs.Setup.{booted_of_setup};
ghost use Rattle.kernel_state.specs.Tables.{tables_of};
ghost use Rattle.new_calls.specs.Applying.{CanApply, HaveApps};
ghost use Rattle.new_calls.specs.Deciding.{Decides, HaveSaid, call_of};
ghost use Rattle.ns_ram.specs.declared.read.Read.{Read as AnyRead};

use crate::argument::invocation;
use crate::call::CallAtEntry;
use crate::halt::{Halt, Settled};
use crate::plan::Plan;
use msg_args::MsgParam;
use ns_ram::{Lane, Reads};
use std::alloc::Global;
use ta_params::codes::{TEE_ERROR_BAD_PARAMETERS, TEE_ERROR_TARGET_DEAD};

impl CallAtEntry<'_> {
    /// The tests of an invoke, and what it begins.
    pub fn invoke_command(
        &self,
        alloc: Global,
        lane: &Lane,
        reads: &mut Reads,
    ) -> Result<Plan, Halt>
        requires { HaveApps (booted_of_setup self.now.setup.now) (tables_of self.now.tables.now) }
        ensures decides { Decides self.now invoke_command lane.now reads.old reads.new result }
        ensures can_apply { IfOk result (CanApply (call_of self.now)) }
    {
        let params = self.parameters(alloc, lane, reads)?;
        let Some(invoked) = invocation(params.as_slice()) else {
            return Err(Halt::Settled(Settled::Call(TEE_ERROR_BAD_PARAMETERS)));
        };
        self.invoke_with(alloc, lane, invoked, reads)
    }

    /// The tests of an invoke behind those of its parameters, which are these, and what it begins.
    fn invoke_with(
        &self,
        alloc: Global,
        lane: &Lane,
        invoked: &[MsgParam],
        reads: &mut Reads,
    ) -> Result<Plan, Halt>
        requires apps { HaveApps (booted_of_setup self.now.setup.now) (tables_of self.now.tables.now) }
        requires few { length invoked.now ≤ 4 }
        ensures decides { (before : List AnyRead)
            → HaveSaid (call_of self.now) invocation invoked.now lane.now before reads.old
            → Decides self.now invoke_command lane.now before reads.new result }
        ensures can_apply { IfOk result (CanApply (call_of self.now)) }
    {
        let Some((session, instance)) = self.named_session() else {
            return Err(Halt::Settled(Settled::Call(TEE_ERROR_BAD_PARAMETERS)));
        };
        if instance.dead {
            return Err(Halt::Settled(Settled::Invoke(TEE_ERROR_TARGET_DEAD)));
        }
        let Some(copies) = self.copied_params(alloc, lane, invoked, 0, reads)? else {
            return Err(Halt::Settled(Settled::Invoke(TEE_ERROR_BAD_PARAMETERS)));
        };
        let app = self.app_on(instance)?;
        Ok(Plan::Invokes {
            session,
            app,
            copies,
        })
    }
}
