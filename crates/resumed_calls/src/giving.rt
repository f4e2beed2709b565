//! What a resume gives a call.
ghost use Rattle.std.specs.Prelude.{◌≡◌, ◌<◌, IfOk, IsSome, OnErr, Some};
ghost use Rattle.kernel_state.specs.CallLeaving.{request_of};
ghost use Rattle.kernel_model.specs.Argument.{pair_at};
ghost use Rattle.kernel_model.specs.Given.{given_to, offered_buffer};
ghost use Rattle.kernel_model.specs.Kernel.{PendingCall};
ghost use Rattle.kernel_state.specs.Calls.{IsCall};
ghost use Rattle.ns_ram.specs.Reader.{over_lane};
ghost use Rattle.rpc_msgs.specs.Place.{HasPlaces, arg_at, buffer_at, reader_at};
ghost use Rattle.rpc_msgs.specs.Request.{IsRequest};
ghost use Rattle.resumed_calls.specs.Giving.{CanBeGiven, buffer_as, given_as};

use base::NoMemory;
use frame_pool::Pages;
use kernel_state::{Leaving, Wanted};
use ns_ram::{Lane, Reads, in_ram};
use rpc_cont::{Cont, ResumeInput};
use rpc_msgs::{MESSAGE_BYTES, RequestPlace, RpcBuffer, RpcReply, take_reply};
use smc_abi::Regs;
use std::alloc::Global;

/// A buffer's address is a multiple of this.
const BUFFER_ALIGNMENT: u64 = 8;

/// What a resume with these registers gives the call that a slot was left with, by what it went out with: of a request
/// the reply is read. At want of memory nothing is listed.
#[tactic(auto, using(crate::proofs::Given::replied))]
pub(crate) fn given_to(
    alloc: Global,
    regs: &Regs,
    slot: u32,
    cont: &Cont<Pages>,
    lane: &Lane,
    reads: &mut Reads,
) -> Result<ResumeInput, NoMemory>
    requires { ∥ CanBeGiven cont.now ∥₁ }
    ensures ok { (call : PendingCall) → IsCall cont.now call → IfOk result (λ given.
        over_lane (given_to regs.now.a slot call) lane.now reads.old ≡ Some (given_as given, reads.new)) }
    ensures err { OnErr result (reads.new ≡ reads.old) }
{
    match Leaving::of(slot, cont) {
        Leaving::WantsBuffer => Ok(buffer_or_none(offered_buffer(regs))),
        Leaving::Requests { place, wanted } => {
            let reply = reply_at(alloc, cont, &place, wanted, lane, reads)?;
            Ok(ResumeInput::Reply(reply))
        }
        Leaving::Interrupted | Leaving::FreesBuffer(_) | Leaving::Finishes => {
            Ok(ResumeInput::Nothing)
        }
    }
}

/// Reads the reply to what the call asked for at this place, into a box. That to a sleep or a wake has nothing to read.
fn reply_at(
    alloc: Global,
    cont: &Cont<Pages>,
    place: &RequestPlace,
    wanted: Wanted,
    lane: &Lane,
    reads: &mut Reads,
) -> Result<Box<RpcReply>, NoMemory>
    requires places { HasPlaces (arg_at place.now) (buffer_at place.now) (request_of cont.now.request wanted).wanted }
    requires request { IsRequest (request_of cont.now.request wanted).wanted }
    requires asked { wanted ≡ Wanted.Asked → IsSome cont.now.request }
    ensures ok { IfOk result (λ reply. over_lane (reader_at place.now (request_of cont.now.request wanted).wanted) lane.now reads.old
        ≡ Some (reply.value, reads.new)) }
    ensures err { OnErr result (reads.new ≡ reads.old) }
{
    let Ok(mut reply) = Box::new(alloc, RpcReply::nothing_read()) else {
        return Err(NoMemory);
    };
    match wanted {
        Wanted::Asked => match &cont.request {
            Some(asked) => take_reply(alloc, lane, place, &asked.rpc, &mut reply, reads)?,
            None => unreachable!(),
        },
        Wanted::Sleep(_) | Wanted::Wake(_) => {}
    }
    Ok(reply)
}

/// This buffer, or none.
fn buffer_or_none(buffer: Option<RpcBuffer>) -> ResumeInput
    ensures { given_as result ≡ buffer_as buffer }
{
    match buffer {
        Some(RpcBuffer { addr, cookie }) => ResumeInput::Buffer { addr, cookie },
        None => ResumeInput::NoBuffer,
    }
}

/// The buffer that the registers offer: its address in a1 and a2, and its cookie in a4 and a5. It counts where all of it
/// lies in RAM.
fn offered_buffer(regs: &Regs) -> Option<RpcBuffer>
    ensures { result ≡ offered_buffer regs.now.a }
{
    let addr = pair_at(regs, 1);
    if addr % BUFFER_ALIGNMENT != 0 || !in_ram(addr, MESSAGE_BYTES) {
        return None;
    }
    let cookie = pair_at(regs, 4);
    Some(RpcBuffer { addr, cookie })
}

/// The number in two registers, the upper half in that of this number.
fn pair_at(regs: &Regs, number: usize) -> u64
    requires { number < 7 }
    ensures { result ≡ pair_at regs.now.a number }
{
    u64::from(regs.a[number]) * (1 << 32) + u64::from(regs.a[number + 1])
}
