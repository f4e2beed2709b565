ghost use Rattle.std.specs.Prelude.{◌≡◌, ◌≤◌, IfOk, IfSome, Some, length};
ghost use Rattle.kernel_model.specs.NewCall.{copied_params, parameters};
ghost use Rattle.kernel_model.specs.Decision.{Taken as AnyTaken};
ghost use Rattle.kernel_state.specs.Tables.{tables_of};
ghost use Rattle.new_calls.specs.Applying.{AreRegistered};
ghost use Rattle.new_calls.specs.Deciding.{ComesTo, call_of, copies_or};
ghost use Rattle.ns_ram.specs.Reader.{over_lane};

use crate::argument::params_in;
use crate::call::CallAtEntry;
use crate::halt::{Halt, Settled};
use arrayvec::ArrayVec;
use base::NoMemory;
use msg_args::{HEAD_LEN, MsgParam, PARAM_LEN};
use ns_ram::{Lane, Reads};
use param_copy::{CopyFault, TakenParams, take_params};
use std::alloc::Global;
use ta_params::codes::TEE_ERROR_BAD_PARAMETERS;

impl CallAtEntry<'_> {
    /// The parameters, of which each has to have a valid attribute.
    pub(crate) fn parameters(
        &self,
        alloc: Global,
        lane: &Lane,
        reads: &mut Reads,
    ) -> Result<ArrayVec<MsgParam, 6>, Halt>
        ensures { ComesTo (call_of self.now) (parameters (call_of self.now)) (λ params. params.items)
            lane.now reads.old reads.new result }
    {
        let head = self.entered.head;
        let behind_head = self.entered.arg + HEAD_LEN;
        let bytes = reads.take_bytes(alloc, lane, behind_head, PARAM_LEN * u64::from(head.count))?;
        let Some(params) = params_in(head.count, bytes) else {
            return Err(Halt::Settled(Settled::Call(TEE_ERROR_BAD_PARAMETERS)));
        };
        Ok(params)
    }

    /// Those of an open or invoke copied into a box, of which the first has this number in the argument. None where one can't be.
    pub(crate) fn copied_params(
        &self,
        alloc: Global,
        lane: &Lane,
        params: &[MsgParam],
        first: u8,
        reads: &mut Reads,
    ) -> Result<Option<Box<TakenParams>>, NoMemory>
        requires few { length params.now ≤ 4 }
        requires first { first ≤ 2 }
        ensures copied { IfOk result (λ copies. (faulty : AnyTaken) →
            over_lane (copied_params (call_of self.now) params.now first faulty) lane.now reads.old
            ≡ Some (copies_or faulty copies, reads.new)) }
        ensures cookies { IfOk result (λ copies. IfSome copies (λ taken.
            AreRegistered (tables_of self.now.tables.now) taken.value.cookies.items)) }
    {
        match take_params(alloc, lane, &self.tables.registry, params, first, reads) {
            Ok(copies) => {
                let boxed = Box::new(alloc, copies)?;
                Ok(Some(boxed))
            }
            Err(CopyFault::Memory) => Err(NoMemory),
            Err(CopyFault::TooLong(_)) => Ok(None),
            Err(CopyFault::Cookie(_)) => Ok(None),
            Err(CopyFault::Range(_)) => Ok(None),
            Err(CopyFault::Page(..)) => Ok(None),
        }
    }
}
