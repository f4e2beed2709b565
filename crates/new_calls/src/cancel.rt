ghost use Rattle.std.specs.Prelude.{ℕ, IfOk, List};
ghost use Rattle.kernel_model.specs.NewCall.{cancel_calls};
ghost use Rattle.new_calls.specs.Applying.{CanApply};
ghost use Rattle.new_calls.specs.Deciding.{Decides, call_of};
ghost use Rattle.ns_ram.specs.declared.read.Read.{Read as AnyRead};

use crate::call::CallAtEntry;
use crate::halt::{Halt, Settled};
use crate::plan::Plan;
use ta_params::codes::TEE_ERROR_BAD_PARAMETERS;

impl CallAtEntry<'_> {
    /// The pending calls of the named session that have the call's number are cancelled, and the cancel succeeds, also
    /// where there are none. Its parameters are ignored.
    pub fn cancel_calls(&self) -> Result<Plan, Halt>
        ensures decides { (lane : List ℕ) (reads : List AnyRead) →
            Decides self.now cancel_calls lane reads reads result }
        ensures can_apply { IfOk result (CanApply (call_of self.now)) }
    {
        if self.named_session().is_none() {
            return Err(Halt::Settled(Settled::Call(TEE_ERROR_BAD_PARAMETERS)));
        }
        Ok(Plan::Cancels)
    }
}
