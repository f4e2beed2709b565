//! What a call is resumed with.
ghost use Rattle.std.specs.Prelude.{◌≡◌, ◌≢◌, ℕ, Some, None, IsSome, IsSomeAnd};
ghost use Rattle.job_model.specs.Job.{Job};
ghost use Rattle.job_model.specs.Steps.{advance_on_answer};
ghost use Rattle.rpc_cont.specs.Answering.{CanBeAnswered, IsAnswered};
ghost use Rattle.rpc_cont.specs.Conts.{call_owner, job_of, memory_size};
ghost use Rattle.rpc_cont.specs.Resuming.{answer_in};
ghost use Rattle.rpc_cont.specs.Running.{IsWaiting, worked};
ghost use Rattle.rpc_msgs.specs.Answer.{Replied, RpcAnswer};

use crate::cont::Cont;
use crate::input::ResumeInput;
use crate::phase::Phase;
use rpc_msgs::{RpcBuffer, RpcReply};
use ta_step::TaMemory;

impl<M: TaMemory + Drop> Cont<M> {
    /// Resumes the call with what the normal world gives it: a buffer for its requests, or the answer to what it
    /// asks for. It has no buffer when it gets one. Takes no memory.
    pub fn resume_with(&mut self, input: ResumeInput)
        requires answers { self.old.phase ≡ Phase.Asks → IsSome (answer_in input) → CanBeAnswered M.bytes self.old }
        requires buffer { (addr cookie : ℕ) → input ≡ ResumeInput.Buffer addr cookie → self.old.buffer ≡ None }
        ensures nothing { input ≡ ResumeInput.Nothing → self.new ≡ self.old }
        ensures runs { self.old.phase ≡ Phase.Runs → self.new ≡ self.old }
        ensures buffer { (addr cookie : ℕ) → input ≡ ResumeInput.Buffer addr cookie → self.old.phase ≢ Phase.Runs
            → self.new ≡ record self.old { buffer = Some (record { addr = addr; cookie = cookie }) } }
        ensures asks { (answer : RpcAnswer) (job : Job) → self.old.phase ≡ Phase.Asks → answer_in input ≡ Some answer
            → IsWaiting M.bytes (call_owner self.old) self.old (job_of M.bytes self.old) job
            → IsSomeAnd (advance_on_answer answer job) (λ next. IsAnswered M.bytes self.new next) }
        ensures waits { self.old.phase ≡ Phase.Waits → IsSome (answer_in input) → self.new ≡ self.old }
        ensures ends { self.old.phase ≡ Phase.Ends → IsSome (answer_in input) → self.new ≡ record self.old { request = None } }
        ensures keeps { IsSome (answer_in input) → self.new.buffer ≡ self.old.buffer }
        ensures size { memory_size M.bytes self.new ≡ memory_size M.bytes self.old }
        ensures stays { self.new ≡ record (worked self.old self.new) { buffer = self.new.buffer; phase = self.new.phase } }
    {
        match input {
            ResumeInput::Nothing => {}
            ResumeInput::Buffer { addr, cookie } => match self.phase {
                Phase::Runs => {}
                Phase::Asks | Phase::Waits | Phase::Ends => {
                    self.buffer = Some(RpcBuffer { addr, cookie });
                }
            },
            ResumeInput::NoBuffer => match self.phase {
                Phase::Asks => self.without_buffer(),
                Phase::Ends => self.request = None,
                Phase::Runs | Phase::Waits => {}
            },
            ResumeInput::Reply(reply) => self.resume_with_reply(&reply),
        }
    }

    /// Resumes the call with the reply to its request, which is lent. Takes no memory.
    pub fn resume_with_reply(&mut self, reply: &RpcReply)
        requires { self.old.phase ≡ Phase.Asks → CanBeAnswered M.bytes self.old }
        ensures runs { self.old.phase ≡ Phase.Runs → self.new ≡ self.old }
        ensures asks { (job : Job) → self.old.phase ≡ Phase.Asks
            → IsWaiting M.bytes (call_owner self.old) self.old (job_of M.bytes self.old) job
            → IsSomeAnd (advance_on_answer (Replied reply.now) job) (λ next. IsAnswered M.bytes self.new next) }
        ensures waits { self.old.phase ≡ Phase.Waits → self.new ≡ self.old }
        ensures ends { self.old.phase ≡ Phase.Ends → self.new ≡ record self.old { request = None } }
        ensures size { memory_size M.bytes self.new ≡ memory_size M.bytes self.old }
        ensures stays { self.new ≡ record (worked self.old self.new) { phase = self.new.phase } }
    {
        match self.phase {
            Phase::Asks => self.reply(reply),
            Phase::Ends => self.request = None,
            Phase::Runs | Phase::Waits => {}
        }
    }
}
