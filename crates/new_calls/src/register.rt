ghost use Rattle.std.specs.Prelude.{◌≡◌, ◌<◌, ◌≤◌, IfErr, IfOk, IfSome, List, Some};
ghost use Rattle.kernel_model.specs.Argument.{registering};
ghost use Rattle.kernel_model.specs.Decision.{Taken as AnyTaken};
ghost use Rattle.kernel_model.specs.NewCall.{listed_pages, offset_in, pages_touched, register_memory};
ghost use Rattle.new_calls.specs.Applying.{CanApply};
ghost use Rattle.new_calls.specs.Deciding.{Decides, HaveSaid, call_of, pages_or};
ghost use Rattle.new_calls.specs.Faults.{register_fault};
ghost use Rattle.ns_ram.specs.Attempt.{faultless};
ghost use Rattle.ns_ram.specs.Reader.{over_lane};
ghost use Rattle.ns_ram.specs.declared.read.Read.{Read as AnyRead};
ghost use Rattle.shm_registry.specs.Pieces.{IsBuffer};

use crate::argument::registering;
use crate::call::CallAtEntry;
use crate::halt::{Halt, Settled};
use crate::plan::Plan;
use base::{NoMemory, Sequence};
use msg_args::MsgParam;
use ns_ram::{Lane, PAGE_BYTES, Reads, WalkFault, take_pages};
use shm_registry::{PageBuffer, REGISTRY_LIMIT};
use std::alloc::Global;
use ta_params::codes::{TEE_ERROR_BAD_PARAMETERS, TEE_ERROR_OUT_OF_MEMORY};

/// The most pages that a registered buffer touches.
const MAX_PAGES: u128 = 1024;

/// Where the buffer begins in its first page: the low twelve bits of p. The rest is the address of the first page list.
fn offset_in(param: &MsgParam) -> u64
    ensures value { result ≡ offset_in param.now }
    ensures page { result < 4096 }
{
    param.p % PAGE_BYTES
}

/// How many pages the buffer touches.
fn pages_touched(param: &MsgParam) -> u128
    ensures { result ≡ pages_touched param.now }
{
    if param.q == 0 {
        return 0;
    }
    (u128::from(offset_in(param)) + u128::from(param.q) + 4095) / 4096
}

impl CallAtEntry<'_> {
    /// The tests of a register, and what it changes.
    pub fn register_memory(
        &self,
        alloc: Global,
        lane: &Lane,
        reads: &mut Reads,
    ) -> Result<Plan, Halt>
        ensures decides { Decides self.now register_memory lane.now reads.old reads.new result }
        ensures can_apply { IfOk result (CanApply (call_of self.now)) }
    {
        let params = self.parameters(alloc, lane, reads)?;
        let Some(param) = registering(params.as_slice()) else {
            return Err(Halt::Settled(Settled::Call(TEE_ERROR_BAD_PARAMETERS)));
        };
        self.register_buffer(alloc, lane, &param, reads)
    }

    /// The tests of a register behind those of its parameters, which say this, and what it changes.
    fn register_buffer(
        &self,
        alloc: Global,
        lane: &Lane,
        param: &MsgParam,
        reads: &mut Reads,
    ) -> Result<Plan, Halt>
        ensures decides { (before : List AnyRead)
            → HaveSaid (call_of self.now) registering param.now lane.now before reads.old
            → Decides self.now register_memory lane.now before reads.new result }
        ensures can_apply { IfOk result (CanApply (call_of self.now)) }
    {
        if let Some(code) = self.register_fault(param) {
            return Err(Halt::Settled(Settled::Call(code)));
        }
        let Some(pages) = self.listed_pages(alloc, lane, param, reads)? else {
            return Err(Halt::Settled(Settled::Call(TEE_ERROR_BAD_PARAMETERS)));
        };
        let buffer = PageBuffer {
            pages: Sequence::of(pages),
            offset: offset_in(param) as u32,
            size: param.q,
        };
        Ok(Plan::KeepsBuffer {
            cookie: param.s,
            buffer,
        })
    }

    /// The code of the first test on the buffer that fails.
    fn register_fault(&self, param: &MsgParam) -> Option<u32>
        ensures { result ≡ register_fault (call_of self.now) param.now }
    {
        if self.tables.registry.contains(param.s) {
            return Some(TEE_ERROR_BAD_PARAMETERS);
        }
        if param.q == 0 {
            return Some(TEE_ERROR_BAD_PARAMETERS);
        }
        if pages_touched(param) > MAX_PAGES {
            return Some(TEE_ERROR_BAD_PARAMETERS);
        }
        if self.tables.registry.len() >= REGISTRY_LIMIT {
            return Some(TEE_ERROR_OUT_OF_MEMORY);
        }
        None
    }

    /// Its pages, by the lists of their addresses. None where one is no page of RAM: that comes before want of memory,
    /// at which nothing was read.
    fn listed_pages(
        &self,
        alloc: Global,
        lane: &Lane,
        param: &MsgParam,
        reads: &mut Reads,
    ) -> Result<Option<Vec<u64>>, NoMemory>
        requires { pages_touched param.now ≤ 1024 }
        ensures walked { IfOk result (λ pages. (faulty : AnyTaken) →
            over_lane (faultless (listed_pages param.now) faulty) lane.now reads.old
            ≡ Some (pages_or faulty pages, reads.new)) }
        ensures good { IfOk result (λ walked. IfSome walked (λ pages.
            IsBuffer (record { pages = pages.items; offset = offset_in param.now; size = param.now.q }))) }
        ensures memory { IfErr result (λ _. reads.new ≡ reads.old) }
    {
        let first_list = param.p - offset_in(param);
        let count = pages_touched(param) as u32;
        match take_pages(alloc, lane, first_list, count, reads) {
            Ok(pages) => Ok(Some(pages)),
            Err(WalkFault::BadPage(_)) => Ok(None),
            Err(WalkFault::Memory) => Err(NoMemory),
        }
    }
}
