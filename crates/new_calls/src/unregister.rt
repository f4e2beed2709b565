ghost use Rattle.std.specs.Prelude.{◌≡◌, IfOk, is_none, not};
ghost use Rattle.kernel_model.specs.NewCall.{unregister_memory};
ghost use Rattle.shm_registry.specs.Registered.{lowest_slot};
ghost use Rattle.new_calls.specs.Applying.{CanApply};
ghost use Rattle.new_calls.specs.Deciding.{Decides, call_of};

use crate::argument::unregistering;
use crate::call::CallAtEntry;
use crate::halt::{Halt, Settled};
use crate::plan::Plan;
use ns_ram::{Lane, Reads};
use std::alloc::Global;
use ta_params::codes::{TEE_ERROR_BAD_PARAMETERS, TEE_ERROR_BUSY};

impl CallAtEntry<'_> {
    /// The tests of an unregister, and what it changes.
    pub fn unregister_memory(
        &self,
        alloc: Global,
        lane: &Lane,
        reads: &mut Reads,
    ) -> Result<Plan, Halt>
        ensures decides { Decides self.now unregister_memory lane.now reads.old reads.new result }
        ensures can_apply { IfOk result (CanApply (call_of self.now)) }
    {
        let params = self.parameters(alloc, lane, reads)?;
        let Some(param) = unregistering(params.as_slice()) else {
            return Err(Halt::Settled(Settled::Call(TEE_ERROR_BAD_PARAMETERS)));
        };
        if !self.tables.registry.contains(param.s) {
            return Err(Halt::Settled(Settled::Call(TEE_ERROR_BAD_PARAMETERS)));
        }
        if self.is_pinned(param.s) {
            return Err(Halt::Settled(Settled::Call(TEE_ERROR_BUSY)));
        }
        Ok(Plan::DropsBuffer { cookie: param.s })
    }

    /// Whether a slot pins the cookie, the call's own among them, which pins the one that names its argument.
    fn is_pinned(&self, cookie: u64) -> bool
        ensures { result ≡ not (is_none (lowest_slot (call_of self.now).tables.registered.pins cookie)) }
    {
        self.entered.cookie == Some(cookie) || self.tables.registry.pinned_by(cookie).is_some()
    }
}
