//! The answers to what an application has asked for.
ghost use Rattle.std.specs.Prelude.{◌≡◌, ◌≢◌, List, ℕ, [], Some, None, true, IsSome, IsSomeAnd, IsTrue, if◌then◌else◌};
ghost use Rattle.job_model.specs.Owner.{Owner};
ghost use Rattle.job_model.specs.Job.{Job, with_cancel_seen};
ghost use Rattle.job_model.specs.Steps.{advance_on_answer};
ghost use Rattle.rpc_cont.specs.Advancing.{CanAdvance};
ghost use Rattle.rpc_cont.specs.Answering.{CanBeAnswered, IsAnswered, phase_behind};
ghost use Rattle.rpc_cont.specs.Conts.{call_owner, is_at_its_end, job_of, memory_size};
ghost use Rattle.rpc_cont.specs.Running.{IsWaiting, worked};
ghost use Rattle.rpc_msgs.specs.Answer.{NoBuffer, Replied};
ghost use Rattle.ta_step.specs.Machine.{state_of};
ghost use Rattle.ta_step.specs.State.{is_cancelled};
ghost use Rattle.ta_step.specs.SystemCalls.{answered};
ghost use Rattle.ta_step.specs.declared.stop.Request.{Request as AnyRequest};
ghost use Rattle.tee_storage.specs.States.{reads_on};

use crate::asks::told_time;
use crate::cont::Cont;
use crate::machine_span::MachineSpan;
use crate::phase::Phase;
use crate::stop::ContStop;
use job_model::EntryPoint;
use rpc_msgs::{Rpc, RpcReply};
use ta_params::codes::*;
use ta_step::{Machine, ObjectCall, Request, TaMemory};

/// How far a call has come behind an answer, by what it then stops with.
fn phase_behind(stop: Option<ContStop>) -> Phase
    ensures { result ≡ phase_behind stop }
{
    match stop {
        Some(stop) => stop.phase(),
        None => Phase::Runs,
    }
}

impl<M: TaMemory + Drop> Cont<M> {
    /// Goes on with the reply to its request.
    pub(crate) fn reply(&mut self, reply: &RpcReply)
        requires { CanBeAnswered M.bytes self.old }
        ensures answers { (job : Job) → IsWaiting M.bytes (call_owner self.old) self.old (job_of M.bytes self.old) job
            → IsSomeAnd (advance_on_answer (Replied reply.now) job) (λ next. IsAnswered M.bytes self.new next) }
        ensures size { memory_size M.bytes self.new ≡ memory_size M.bytes self.old }
        ensures stays { self.new ≡ record (worked self.old self.new) { phase = self.new.phase } }
    {
        match self.asked() {
            Request::Time => {
                let (r0, r1, r2) = told_time(reply);
                self.answer(r0, r1, r2);
            }
            Request::Suspend(_) => {
                let code = self.waited(TEE_SUCCESS);
                self.answer(code, 0, 0);
            }
            Request::Object(call) => self.object_reply(call, reply),
        }
    }

    /// Goes on without a buffer for its request.
    pub(crate) fn without_buffer(&mut self)
        requires { CanBeAnswered M.bytes self.old }
        ensures answers { (job : Job) → IsWaiting M.bytes (call_owner self.old) self.old (job_of M.bytes self.old) job
            → IsSomeAnd (advance_on_answer NoBuffer job) (λ next. IsAnswered M.bytes self.new next) }
        ensures size { memory_size M.bytes self.new ≡ memory_size M.bytes self.old }
        ensures stays { self.new ≡ record (worked self.old self.new) { phase = self.new.phase } }
    {
        match self.asked() {
            Request::Time => self.answer(TEE_ERROR_OUT_OF_MEMORY, 0, 0),
            Request::Suspend(_) => {
                let code = self.waited(TEE_ERROR_OUT_OF_MEMORY);
                self.answer(code, 0, 0);
            }
            Request::Object(_) => {
                let state = self.object.take().unwrap();
                self.answer(state.no_buffer(), 0, 0);
            }
        }
    }

    /// Its machine.
    fn machine(&self) -> &Machine<M>
        requires { self.now.machine ≢ None }
        ensures { self.now.machine ≡ Some result.now }
    {
        match &self.machine {
            Some(machine) => machine,
            None => unreachable!(),
        }
    }

    /// What its machine waits for.
    fn asked(&self) -> Request
        requires { CanBeAnswered M.bytes self.now }
        ensures { IsSomeAnd self.now.machine (λ m. (state_of M.bytes m).asked ≡ Some result) }
    {
        match self.machine().asked() {
            Some(request) => request,
            None => unreachable!(),
        }
    }

    /// The result of a wait that would have this one if the call weren't cancelled.
    fn waited(&self, code: u32) -> u32
        requires { CanBeAnswered M.bytes self.now }
        ensures { IsSomeAnd self.now.machine (λ m. result ≡ (if is_cancelled (state_of M.bytes m) then 0xffff0002 else code)) }
    {
        if self.machine().cancelled() {
            TEE_ERROR_CANCEL
        } else {
            code
        }
    }

    /// Answers its machine, which runs on.
    fn answer(&mut self, r0: u32, r1: u32, r2: u32)
        requires { IsSomeAnd self.old.machine (λ m. IsSome (state_of M.bytes m).asked) }
        ensures gives { IsSomeAnd self.old.machine (λ m. (request : AnyRequest) → (state_of M.bytes m).asked ≡ Some request
            → IsSomeAnd self.new.machine (λ n. state_of M.bytes n ≡ answered request r0 r1 r2 (state_of M.bytes m))) }
        ensures size { memory_size M.bytes self.new ≡ memory_size M.bytes self.old }
        ensures stays { self.new ≡ record self.old { machine = self.new.machine; request = None; phase = Phase.Runs } }
    {
        self.give(r0, r1, r2);
        self.phase = Phase::Runs;
    }

    /// The same as `reply`, to a call on an object.
    fn object_reply(&mut self, call: ObjectCall, reply: &RpcReply)
        requires can { CanBeAnswered M.bytes self.old }
        requires asked { IsSomeAnd self.old.machine (λ m. (state_of M.bytes m).asked ≡ Some (Request.Object call)) }
        ensures answers { (job : Job) → IsWaiting M.bytes (call_owner self.old) self.old (job_of M.bytes self.old) job
            → IsSomeAnd (advance_on_answer (Replied reply.now) job) (λ next. IsAnswered M.bytes self.new next) }
        ensures size { memory_size M.bytes self.new ≡ memory_size M.bytes self.old }
        ensures stays { self.new ≡ record (worked self.old self.new) { phase = self.new.phase } }
    {
        if self.reads_on(reply) {
            self.read_on(call, reply);
        } else {
            self.object_answer(call, reply);
        }
    }

    /// Whether the reply brings a piece of an object that it reads, and another piece follows.
    fn reads_on(&self, reply: &RpcReply) -> bool
        ensures { IsTrue result → IsSomeAnd self.now.object (λ state. reads_on state reply.now ≡ true) }
    {
        match &self.object {
            Some(state) => state.reads_on(reply),
            None => false,
        }
    }

    /// The same as `object_reply`, to such a piece. The call stays in its place.
    fn read_on(&mut self, call: ObjectCall, reply: &RpcReply)
        requires can { CanBeAnswered M.bytes self.old }
        requires asked { IsSomeAnd self.old.machine (λ m. (state_of M.bytes m).asked ≡ Some (Request.Object call)) }
        requires reads { IsSomeAnd self.old.object (λ state. reads_on state reply.now ≡ true) }
        ensures answers { (job : Job) → IsWaiting M.bytes (call_owner self.old) self.old (job_of M.bytes self.old) job
            → IsSomeAnd (advance_on_answer (Replied reply.now) job) (λ next. IsAnswered M.bytes self.new next) }
        ensures size { memory_size M.bytes self.new ≡ memory_size M.bytes self.old }
        ensures stays { self.new ≡ record (worked self.old self.new) { phase = self.new.phase } }
    {
        let machine = self.machine.take().unwrap();
        let mut span = MachineSpan::of(call, machine);
        let Some(state) = &mut self.object else {
            unreachable!();
        };
        let rpc = state.read_on(reply, &mut span);
        self.machine = Some(span.into_machine());
        self.ask_next(rpc);
        self.phase = Phase::Asks;
    }

    /// Asks for this, without bytes, in place of what it has asked for.
    fn ask_next(&mut self, rpc: Rpc)
        requires { IsSome self.old.request }
        ensures { self.new ≡ record self.old { request = Some (record { rpc = rpc; payload = [] }) } }
    {
        let Some(asked) = &mut self.request else {
            unreachable!();
        };
        asked.turn_to(rpc);
    }

    /// The same as `object_reply`, to any reply.
    fn object_answer(&mut self, call: ObjectCall, reply: &RpcReply)
        requires can { CanBeAnswered M.bytes self.old }
        requires asked { IsSomeAnd self.old.machine (λ m. (state_of M.bytes m).asked ≡ Some (Request.Object call)) }
        ensures answers { (job : Job) → IsWaiting M.bytes (call_owner self.old) self.old (job_of M.bytes self.old) job
            → IsSomeAnd (advance_on_answer (Replied reply.now) job) (λ next. IsAnswered M.bytes self.new next) }
        ensures size { memory_size M.bytes self.new ≡ memory_size M.bytes self.old }
        ensures stays { self.new ≡ record (worked self.old self.new) { phase = self.new.phase } }
    {
        let machine = self.machine.take().unwrap();
        let mut state = self.object.take().unwrap();
        let mut span = MachineSpan::of(call, machine);
        let step = state.answer(reply, &mut span, &mut self.objects);
        self.machine = Some(span.into_machine());
        let stop = self.go_on(call, state, step);
        self.phase = phase_behind(stop);
    }

    /// The call has seen that it was cancelled, and its machine is told.
    pub fn see_cancel(&mut self)
        ensures job { job_of M.bytes self.new ≡ with_cancel_seen (job_of M.bytes self.old) }
        ensures runs { CanAdvance M.bytes self.old → CanAdvance M.bytes self.new }
        ensures waits { (owner : Owner) (job : Job) → IsWaiting M.bytes owner self.old (job_of M.bytes self.old) job
            → IsWaiting M.bytes owner self.new (job_of M.bytes self.new) (with_cancel_seen job) }
        ensures answers { CanBeAnswered M.bytes self.old → CanBeAnswered M.bytes self.new }
        ensures size { memory_size M.bytes self.new ≡ memory_size M.bytes self.old }
        ensures stays { self.new ≡ record self.old { cancelled = true; machine = self.new.machine } }
    {
        if let Some(machine) = &mut self.machine {
            machine.see_cancel();
        }
        self.cancelled = true;
    }

    /// Whether its instance is at its end with it: its create failed, or its destroy has run.
    pub fn ends_instance(&self) -> bool
        ensures { result ≡ is_at_its_end self.now.point self.now.points.items }
    {
        match self.point {
            None => !self.points.is_empty(),
            Some(EntryPoint::Create | EntryPoint::Destroy) => true,
            Some(EntryPoint::Open | EntryPoint::Invoke { .. } | EntryPoint::Close) => false,
        }
    }
}
