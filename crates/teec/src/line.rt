//! A call over a port, from its first SMC to its end.

ghost use Rattle.std.specs.Prelude.{◌≡◌, ◌<◌, ◌≤◌, ℕ, suc, true, [], ◌∷◌, length, is_some, None, All, IfOk, IfErr, OnErr, OnOk};
ghost use Rattle.msg_args.specs.Attribute.{IsAllowed};
ghost use Rattle.ns_ram.specs.Lane.{IsInRam};
ghost use Rattle.ns_ram.specs.Writes.{lane_after};
ghost use Rattle.smc_port.specs.Smc.{Makes};
ghost use Rattle.teec.specs.declared.answer.RpcReturn.{RpcReturn as AnyReturn};
ghost use Rattle.teec.specs.declared.limits.Limits.{Limits as AnyLimits};
ghost use Rattle.teec.specs.Answers.{said};
ghost use Rattle.teec.specs.Returns.{return_in};
ghost use Rattle.teec.specs.Calls.{Call, argument_write};
ghost use Rattle.teec.specs.Client.{ends_client};
ghost use Rattle.teec.specs.Rounds.{Calls, Cancels, Ended, Resumes, Stage, after_resume, after_return, before_answer, regs_at};
ghost use Rattle.teec.specs.Runs.{AnswersMessage, AnswersRpc, IsPrepared, IsStop, Scene, Stopped, Went, moment, scene_of};

use crate::answer::{RpcKind, RpcReturn, Said};
use crate::argument::cancel_argument;
use crate::fault::TeecFault;
use crate::limits::Limits;
use crate::places::{ARGUMENT_AT, CANCEL_AT, MESSAGE_AT, MESSAGE_COOKIE};
use crate::registers::{call_with_arg, return_from_rpc};
use msg_args::{MsgArg, write_arg};
use smc_abi::Regs;
use smc_port::World;
use std::alloc::Global;
use supplicant::{Supplicant, put_refusal, put_reply, read_request};

/// A port, and what answers the requests that come over it.
#[derive(Drop)]
pub(crate) struct Line<W: World> {
    pub(crate) world: W,
    pub(crate) supplicant: Supplicant,
}

impl<W: World> Line<W> {
    /// Makes the call whose argument and buffers stand in RAM, and answers its RPC returns, until it ends. A call that is
    /// cancelled names this session.
    pub(crate) fn call(
        &mut self,
        alloc: Global,
        limits: &Limits,
        session: u32,
    ) -> Result<(), TeecFault>
        requires retries { 1 ≤ limits.now.retries }
        requires rounds { 1 ≤ limits.now.rounds }
        ensures ended { OnOk result ((call : Call) (old : Scene)
            → IsPrepared call session old (scene_of (W.ram self.old.world) self.old.supplicant)
            → Went limits.now call (moment old.ram (W.made self.old.world) old.storage (Calls 0))
            (moment (W.ram self.new.world) (W.made self.new.world) self.new.supplicant Ended)) }
        ensures stopped { IfErr result (λ fault. (call : Call) (old : Scene)
            → IsPrepared call session old (scene_of (W.ram self.old.world) self.old.supplicant)
            → Stopped limits.now call (moment old.ram (W.made self.old.world) old.storage (Calls 0))
            (scene_of (W.ram self.new.world) self.new.supplicant) (W.made self.new.world) (W.has_room self.new.world) fault) }
        ensures storage { IfErr result (λ fault. ends_client fault ≡ None → self.new.supplicant ≡ self.old.supplicant) }
    {
        let answer = self.call_until_taken(limits)?;
        self.answer_returns(alloc, limits, session, answer)
    }

    /// Makes the call as often as no thread is free for it, and gives the first other answer.
    fn call_until_taken(&mut self, limits: &Limits) -> Result<Regs, TeecFault>
        requires { 1 ≤ limits.now.retries }
        ensures taken { IfOk result (λ answer. (call : Call) (old : Scene)
            → IsPrepared call call.session old (scene_of (W.ram self.old.world) self.old.supplicant)
            → Went limits.now call (moment old.ram (W.made self.old.world) old.storage (Calls 0))
            (moment (W.ram self.new.world) (W.made self.new.world) self.new.supplicant
            (after_resume limits.now 0 answer (said answer)))) }
        ensures stopped { IfErr result (λ fault. (call : Call) (old : Scene)
            → IsPrepared call call.session old (scene_of (W.ram self.old.world) self.old.supplicant)
            → Stopped limits.now call (moment old.ram (W.made self.old.world) old.storage (Calls 0))
            (scene_of (W.ram self.new.world) self.new.supplicant) (W.made self.new.world) (W.has_room self.new.world) fault) }
        ensures storage { self.new.supplicant ≡ self.old.supplicant }
    {
        for tries in 0..limits.retries {
            let answer = self.smc(call_with_arg(ARGUMENT_AT))?;
            let Said::NoThread = Said::of(&answer) else {
                return Ok(answer);
            };
        }
        Err(TeecFault::Retried(limits.retries))
    }

    /// Answers the RPC returns of a call, of which this is the first answer, until it ends.
    fn answer_returns(
        &mut self,
        alloc: Global,
        limits: &Limits,
        session: u32,
        first: Regs,
    ) -> Result<(), TeecFault>
        ensures ended { OnOk result ((call : Call) → call.session ≡ session
            → Went limits.now call (moment (W.ram self.old.world) (W.made self.old.world) self.old.supplicant
            (after_resume limits.now 0 first (said first)))
            (moment (W.ram self.new.world) (W.made self.new.world) self.new.supplicant Ended)) }
        ensures stopped { IfErr result (λ fault. (call : Call) → call.session ≡ session
            → Stopped limits.now call (moment (W.ram self.old.world) (W.made self.old.world) self.old.supplicant
            (after_resume limits.now 0 first (said first)))
            (scene_of (W.ram self.new.world) self.new.supplicant) (W.made self.new.world) (W.has_room self.new.world) fault) }
        ensures ends { IfErr result (λ fault. is_some (ends_client fault) ≡ true) }
    {
        let mut answer = first;
        for returns in 0..limits.rounds {
            let Some(rpc) = rpc_return(&answer)? else {
                return Ok(());
            };
            answer = self.answer_return(alloc, limits, session, returns, &rpc)?;
        }
        match rpc_return(&answer)? {
            Some(_) => Err(TeecFault::Rounds(limits.rounds)),
            None => Ok(()),
        }
    }

    /// Answers an RPC return of a call, after as many returns as were answered before, and gives the next answer.
    fn answer_return(
        &mut self,
        alloc: Global,
        limits: &Limits,
        session: u32,
        returns: u32,
        rpc: &RpcReturn,
    ) -> Result<Regs, TeecFault>
        requires { returns < limits.now.rounds }
        ensures went { IfOk result (λ answer. (call : Call) → call.session ≡ session
            → Went limits.now call (moment (W.ram self.old.world) (W.made self.old.world) self.old.supplicant
            (after_return limits.now returns rpc.now))
            (moment (W.ram self.new.world) (W.made self.new.world) self.new.supplicant
            (after_resume limits.now (suc returns) answer (said answer)))) }
        ensures stopped { IfErr result (λ fault. (call : Call) → call.session ≡ session
            → Stopped limits.now call (moment (W.ram self.old.world) (W.made self.old.world) self.old.supplicant
            (after_return limits.now returns rpc.now))
            (scene_of (W.ram self.new.world) self.new.supplicant) (W.made self.new.world) (W.has_room self.new.world) fault) }
        ensures ends { IfErr result (λ fault. is_some (ends_client fault) ≡ true) }
    {
        self.cancel_where_due(limits, session, returns + 1)?;
        self.resume(alloc, rpc)
    }

    /// Cancels the call that is under way, where it is to be cancelled before its return of this number is answered.
    fn cancel_where_due(
        &mut self,
        limits: &Limits,
        session: u32,
        number: u32,
    ) -> Result<(), TeecFault>
        ensures went { OnOk result ((call : Call) (rpc : AnyReturn) → call.session ≡ session
            → Went limits.now call (moment (W.ram self.old.world) (W.made self.old.world) self.old.supplicant
            (before_answer limits.now number rpc))
            (moment (W.ram self.new.world) (W.made self.new.world) self.new.supplicant (Resumes number rpc))) }
        ensures stopped { IfErr result (λ fault. (call : Call) (rpc : AnyReturn) → call.session ≡ session
            → Stopped limits.now call (moment (W.ram self.old.world) (W.made self.old.world) self.old.supplicant
            (before_answer limits.now number rpc))
            (scene_of (W.ram self.new.world) self.new.supplicant) (W.made self.new.world) (W.has_room self.new.world) fault) }
        ensures ends { IfErr result (λ fault. is_some (ends_client fault) ≡ true) }
    {
        if limits.cancels_at(number) {
            self.cancel(session)
        } else {
            Ok(())
        }
    }

    /// Cancels the call that is under way. The answer is looked at for a strange one alone, and an RPC return to it isn't
    /// answered: a client that answered it would make SMCs that no bound counts.
    fn cancel(&mut self, session: u32) -> Result<(), TeecFault>
        ensures went { OnOk result ((limits : AnyLimits) (call : Call) (returns : ℕ) (rpc : AnyReturn) → call.session ≡ session
            → Went limits call (moment (W.ram self.old.world) (W.made self.old.world) self.old.supplicant (Cancels returns rpc))
            (moment (W.ram self.new.world) (W.made self.new.world) self.new.supplicant (Resumes returns rpc))) }
        ensures stopped { IfErr result (λ fault. (limits : AnyLimits) (call : Call) (returns : ℕ) (rpc : AnyReturn) → call.session ≡ session
            → Stopped limits call (moment (W.ram self.old.world) (W.made self.old.world) self.old.supplicant (Cancels returns rpc))
            (scene_of (W.ram self.new.world) self.new.supplicant) (W.made self.new.world) (W.has_room self.new.world) fault) }
        ensures ends { IfErr result (λ fault. is_some (ends_client fault) ≡ true) }
    {
        self.put_argument(CANCEL_AT, &cancel_argument(session));
        let answer = self.smc(call_with_arg(CANCEL_AT))?;
        match Said::of(&answer) {
            Said::Unknown => Err(TeecFault::Strange(answer)),
            _ => Ok(()),
        }
    }

    /// Answers an RPC return, and gives the next answer.
    fn resume(&mut self, alloc: Global, rpc: &RpcReturn) -> Result<Regs, TeecFault>
        ensures went { IfOk result (λ answer. (limits : AnyLimits) (call : Call) (returns : ℕ)
            → Went limits call (moment (W.ram self.old.world) (W.made self.old.world) self.old.supplicant (Resumes returns rpc.now))
            (moment (W.ram self.new.world) (W.made self.new.world) self.new.supplicant
            (after_resume limits returns answer (said answer)))) }
        ensures stopped { IfErr result (λ fault. (limits : AnyLimits) (call : Call) (returns : ℕ)
            → Stopped limits call (moment (W.ram self.old.world) (W.made self.old.world) self.old.supplicant (Resumes returns rpc.now))
            (scene_of (W.ram self.new.world) self.new.supplicant) (W.made self.new.world) (W.has_room self.new.world) fault) }
        ensures ends { IfErr result (λ fault. is_some (ends_client fault) ≡ true) }
    {
        self.answer_rpc(alloc, rpc)?;
        self.smc(return_from_rpc(rpc))
    }

    /// Does what an RPC return asks for. A buffer that isn't the client's has no request that it could answer.
    fn answer_rpc(&mut self, alloc: Global, rpc: &RpcReturn) -> Result<(), TeecFault>
        ensures answered { OnOk result (AnswersRpc rpc.now.kind (scene_of (W.ram self.old.world) self.old.supplicant)
            (scene_of (W.ram self.new.world) self.new.supplicant)) }
        ensures made { W.made self.new.world ≡ W.made self.old.world }
        ensures short { OnErr result (rpc.now.kind ≡ RpcKind.Cmd 1) }
        ensures fault { IfErr result (λ fault. fault ≡ TeecFault.Memory) }
    {
        match rpc.kind {
            RpcKind::Cmd(MESSAGE_COOKIE) => self.answer_message(alloc),
            RpcKind::Cmd(_) | RpcKind::Alloc | RpcKind::Free | RpcKind::Interrupt => Ok(()),
        }
    }

    /// Answers the request that the client's buffer holds.
    fn answer_message(&mut self, alloc: Global) -> Result<(), TeecFault>
        ensures answered { OnOk result (AnswersMessage (scene_of (W.ram self.old.world) self.old.supplicant)
            (scene_of (W.ram self.new.world) self.new.supplicant)) }
        ensures made { W.made self.new.world ≡ W.made self.old.world }
        ensures fault { IfErr result (λ fault. fault ≡ TeecFault.Memory) }
    {
        let Some(request) = read_request(&self.world, MESSAGE_AT, MESSAGE_COOKIE) else {
            put_refusal(&mut self.world, MESSAGE_AT);
            return Ok(());
        };
        let answer = self
            .supplicant
            .answer(alloc, &request.rpc, request.payload.bytes());
        let Ok(reply) = answer else {
            return Err(TeecFault::Memory);
        };
        put_reply(&mut self.world, MESSAGE_AT, &request.rpc, &reply);
        Ok(())
    }

    /// Writes an argument to RAM.
    pub(crate) fn put_argument(&mut self, addr: u64, arg: &MsgArg)
        requires room { IsInRam addr 224 }
        requires count { arg.now.head.count ≡ length arg.now.params.items }
        requires params { All IsAllowed arg.now.params.items }
        ensures ram { W.ram self.new.world ≡ lane_after (W.ram self.old.world) (argument_write addr arg.now ∷ []) }
        ensures made { W.made self.new.world ≡ W.made self.old.world }
        ensures storage { self.new.supplicant ≡ self.old.supplicant }
    {
        self.world.poke(addr, write_arg(arg).as_slice());
    }

    /// Makes an SMC. Where the port refuses it, the call stops before it.
    fn smc(&mut self, regs: Regs) -> Result<Regs, TeecFault>
        ensures made { IfOk result (λ answer. Makes (W.ram self.old.world) (W.made self.old.world) regs answer
            (W.ram self.new.world) (W.made self.new.world)) }
        ensures storage { self.new.supplicant ≡ self.old.supplicant }
        ensures ram_stays { OnErr result (W.ram self.new.world ≡ W.ram self.old.world) }
        ensures made_stays { OnErr result (W.made self.new.world ≡ W.made self.old.world) }
        ensures stop { IfErr result (λ fault. (stage : Stage) → regs_at stage ≡ Some regs
            → IsStop stage (W.has_room self.new.world) fault) }
        ensures ends { IfErr result (λ fault. is_some (ends_client fault) ≡ true) }
    {
        match self.world.smc(regs) {
            Ok(answer) => Ok(answer),
            Err(refusal) => Err(TeecFault::of_port(refusal)),
        }
    }
}

/// The RPC return that an answer is, None at OK. Any other answer to a call that is under way is strange.
fn rpc_return(answer: &Regs) -> Result<Option<RpcReturn>, TeecFault>
    ensures { result ≡ return_in answer.now }
{
    match Said::of(answer) {
        Said::Finished => Ok(None),
        Said::Returned(rpc) => Ok(Some(rpc)),
        Said::NoThread | Said::Unknown => Err(TeecFault::Strange(*answer)),
    }
}
