ghost use Rattle.std.specs.Prelude.{ℕ, IfOk, List};
ghost use Rattle.kernel_model.specs.NewCall.{close_session};
ghost use Rattle.kernel_state.specs.Setup.{booted_of_setup};
ghost use Rattle.kernel_state.specs.Tables.{tables_of};
ghost use Rattle.new_calls.specs.Applying.{CanApply, HaveApps};
ghost use Rattle.new_calls.specs.Deciding.{Decides, call_of};
ghost use Rattle.ns_ram.specs.declared.read.Read.{Read as AnyRead};

use crate::call::CallAtEntry;
use crate::halt::{Halt, Settled};
use crate::plan::Plan;
use ta_params::codes::TEE_ERROR_BAD_PARAMETERS;

impl CallAtEntry<'_> {
    /// The tests of a close, and what it begins. Its parameters are ignored, and its instance may be dead.
    pub fn close_session(&self) -> Result<Plan, Halt>
        requires { HaveApps (booted_of_setup self.now.setup.now) (tables_of self.now.tables.now) }
        ensures decides { (lane : List ℕ) (reads : List AnyRead) →
            Decides self.now close_session lane reads reads result }
        ensures can_apply { IfOk result (CanApply (call_of self.now)) }
    {
        let Some((session, instance)) = self.named_session() else {
            return Err(Halt::Settled(Settled::Call(TEE_ERROR_BAD_PARAMETERS)));
        };
        let app = self.app_on(instance)?;
        Ok(Plan::Closes { session, app })
    }
}
