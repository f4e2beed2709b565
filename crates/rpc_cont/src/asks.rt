//! What an application asks for as it runs, and what becomes of the answer.
ghost use Rattle.std.specs.Prelude.{◌≡◌, List, ℕ, Some, None, IsSome, IsSomeAnd};
ghost use Rattle.job_model.specs.Owner.{Owner, owner_of};
ghost use Rattle.job_model.specs.declared.entry_point.EntryPoint.{EntryPoint as AnyPoint};
ghost use Rattle.job_model.specs.Asking.{PendingRequest, Gives, bytes_at, object_asking, told_time};
ghost use Rattle.job_model.specs.Job.{of_tee};
ghost use Rattle.job_model.specs.Steps.{new_request, on_from, advance_on_answers};
ghost use Rattle.rpc_cont.specs.Conts.{job_at, memory_size};
ghost use Rattle.rpc_cont.specs.Running.{IsAsking, IsOver, IsTurn, worked};
ghost use Rattle.ta_isa.specs.declared.image.Image.{Image as AnyImage};
ghost use Rattle.ta_step.specs.Machine.{state_of};
ghost use Rattle.ta_step.specs.Requests.{object_span};
ghost use Rattle.ta_step.specs.SystemCalls.{answered};
ghost use Rattle.ta_step.specs.declared.stop.Request.{Request as AnyRequest};
ghost use Rattle.tee_storage.specs.States.{StandsFor};

use crate::cont::{Asked, Cont};
use crate::machine_span::MachineSpan;
use crate::stop::ContStop;
use rpc_msgs::{Payload, Rpc, RpcReply};
use ta_params::CallResult;
use ta_params::codes::*;
use ta_step::{Machine, ObjectCall, Request, TaMemory};
use tee_storage::{ObjectState, StorageStep};
use uuid::Uuid;

const NANOSECONDS_OF_A_MILLISECOND: u32 = 1_000_000;

/// How many numbers a register has.
const TWO_POW_32: u64 = 1 << 32;

/// The registers that tell an application the time.
pub(crate) fn told_time(reply: &RpcReply) -> (u32, u32, u32)
    ensures { told_time reply.now ≡ Gives result.0 result.1 result.2 }
{
    if reply.ret != TEE_SUCCESS {
        return (TEE_ERROR_GENERIC, 0, 0);
    }
    let seconds = (reply.v % TWO_POW_32) as u32;
    let nanoseconds = (reply.w % TWO_POW_32) as u32;
    (
        TEE_SUCCESS,
        seconds,
        nanoseconds / NANOSECONDS_OF_A_MILLISECOND,
    )
}

impl<M: TaMemory + Drop> Cont<M> {
    /// Begins what its machine has asked for.
    pub(crate) fn ask(&mut self, uuid: Uuid, request: Request) -> Option<ContStop>
        requires { IsAsking M.bytes self.old request }
        ensures asks { (image : AnyImage) → IsSomeAnd self.old.machine (λ m. (here : AnyPoint) → self.old.point ≡ Some here
            → (let job = job_at M.bytes (owner_of uuid self.old.key) image self.old in
            let machine = state_of M.bytes m in
            IsSomeAnd (advance_on_answers job image here machine (new_request job machine request))
            (λ turn. IsTurn M.bytes (owner_of uuid self.old.key) image self.new turn result))) }
        ensures size { memory_size M.bytes self.new ≡ memory_size M.bytes self.old }
        ensures stays { self.new ≡ worked self.old self.new }
    {
        match request {
            Request::Time => Some(self.wait_for(Rpc::Time, Payload::new())),
            Request::Suspend(ms) => Some(self.wait_for(Rpc::Suspend(ms), Payload::new())),
            Request::Object(call) => {
                let machine = self.machine.take().unwrap();
                let span = MachineSpan::of(call, machine);
                let (state, step) = ObjectState::start(
                    call,
                    uuid,
                    &span,
                    &mut self.objects,
                    &self.key,
                );
                self.machine = Some(span.into_machine());
                self.go_on(call, state, step)
            }
        }
    }

    /// Goes on from the next step of a call on an object.
    pub(crate) fn go_on(
        &mut self,
        call: ObjectCall,
        state: ObjectState,
        step: StorageStep,
    ) -> Option<ContStop>
        requires { IsAsking M.bytes self.old (Request.Object call) }
        ensures turns { (owner : Owner) (image : AnyImage) (asked : PendingRequest) → asked.request ≡ Request.Object call
            → IsSomeAnd self.old.machine (λ m. (here : AnyPoint) → self.old.point ≡ Some here
            → (let machine = state_of M.bytes m in
            let range = (let span = object_span call in bytes_at machine span.0 span.1) in
            StandsFor state call owner.uuid owner.key asked.range asked.objects asked.answers
            (record { step = step; range = range; objects = self.old.objects })
            → IsTurn M.bytes owner image self.new (on_from (job_at M.bytes owner image self.old) image here
            machine asked self.old.objects (object_asking step)) result)) }
        ensures size { memory_size M.bytes self.new ≡ memory_size M.bytes self.old }
        ensures stays { self.new ≡ worked self.old self.new }
    {
        match step {
            StorageStep::Ask { rpc, payload } => {
                self.object = Some(state);
                Some(self.wait_for(rpc, payload))
            }
            StorageStep::Done { result, value } => {
                self.give(result, value, 0);
                None
            }
            StorageStep::Panic(code) => Some(self.end_by_panic(code)),
        }
    }

    /// Asks the normal world for this.
    fn wait_for(&mut self, rpc: Rpc, payload: Payload) -> ContStop
        ensures answer { result ≡ ContStop.Asks }
        ensures stays { self.new ≡ record self.old { request = Some (record { rpc = rpc; payload = payload }) } }
    {
        self.request = Some(Asked { rpc, payload });
        ContStop::Asks
    }

    /// Gives the application these registers, in answer to what it has asked for.
    pub(crate) fn give(&mut self, r0: u32, r1: u32, r2: u32)
        requires { IsSomeAnd self.old.machine (λ m. IsSome (state_of M.bytes m).asked) }
        ensures gives { IsSomeAnd self.old.machine (λ m. (request : AnyRequest) → (state_of M.bytes m).asked ≡ Some request
            → IsSomeAnd self.new.machine (λ n. state_of M.bytes n ≡ answered request r0 r1 r2 (state_of M.bytes m))) }
        ensures size { memory_size M.bytes self.new ≡ memory_size M.bytes self.old }
        ensures stays { self.new ≡ record self.old { machine = self.new.machine; request = None } }
    {
        let Some(machine) = &mut self.machine else {
            unreachable!();
        };
        machine.answer(r0, r1, r2);
        self.request = None;
    }

    /// Ends the call, whose application has panicked.
    pub(crate) fn end_by_panic(&mut self, code: u32) -> ContStop
        requires { self.old.memory ≡ None }
        ensures answer { result ≡ ContStop.Panicked code }
        ensures dead { self.new.result ≡ of_tee 0xffff3024 }
        ensures over { IsOver self.new }
        ensures size { memory_size M.bytes self.new ≡ memory_size M.bytes self.old }
        ensures stays { self.new ≡ record self.old
            { result = self.new.result; machine = None; memory = self.new.memory; object = None; request = None } }
    {
        if let Some(machine) = self.machine.take() {
            let (memory, _) = machine.finish();
            self.memory = Some(memory);
        }
        self.request = None;
        self.object = None;
        self.result = CallResult::of_tee(TEE_ERROR_TARGET_DEAD);
        ContStop::Panicked(code)
    }
}
