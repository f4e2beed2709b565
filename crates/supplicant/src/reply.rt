//! The answer to what a message holds.

ghost use Rattle.std.specs.Prelude.{◌≡◌, ◌+◌, ◌≤◌, [], ◌∷◌, length};
ghost use Rattle.std.specs.Int.{to_le_bytes, w64};
ghost use Rattle.msg_args.specs.Layout.{p_at, q_at};
ghost use Rattle.ns_ram.specs.Lane.{IsInRam, bytes_put};
ghost use Rattle.ns_ram.specs.Writes.{lane_after};
ghost use Rattle.rpc_msgs.specs.Answer.{IsReplyTo};
ghost use Rattle.rpc_msgs.specs.Request.{payload_writes};
ghost use Rattle.supplicant.specs.Answering.{number_write, refusal_writes, reply_writes};

use msg_args::{p_at, q_at, ret_at};
use rpc_msgs::{PAYLOAD_OFFSET, Rpc, RpcReply};
use smc_port::World;
use ta_params::codes::TEE_ERROR_NOT_SUPPORTED;

/// Answers the request that the message at `buffer` holds with a reply to it: the result, and behind that what is read
/// of the reply. It changes no other byte, and makes no SMC.
pub fn put_reply<W: World>(world: &mut W, buffer: u64, rpc: &Rpc, reply: &RpcReply)
    requires in_ram { IsInRam buffer 4096 }
    requires kind { IsReplyTo rpc.now reply.now }
    ensures ram { W.ram world.new ≡ lane_after (W.ram world.old) (reply_writes buffer rpc.now reply.now) }
    ensures made { W.made world.new ≡ W.made world.old }
{
    world.poke(ret_at(buffer), &reply.ret.to_le_bytes());
    match rpc {
        Rpc::Time => {
            put_time(world, buffer, reply.v, reply.w);
        }
        Rpc::FsOpen(_) | Rpc::FsCreate(_) => put_number(world, p_at(buffer, 2), reply.v),
        Rpc::FsRead { .. } => {
            put_number(world, q_at(buffer, 1), reply.size);
            put_payload(world, buffer, reply.bytes.bytes());
        }
        _ => {}
    }
}

/// Answers a message that holds no request.
pub fn put_refusal<W: World>(world: &mut W, buffer: u64)
    requires { IsInRam buffer 4096 }
    ensures ram { W.ram world.new ≡ lane_after (W.ram world.old) (refusal_writes buffer) }
    ensures made { W.made world.new ≡ W.made world.old }
{
    world.poke(ret_at(buffer), &TEE_ERROR_NOT_SUPPORTED.to_le_bytes());
}

/// Writes seconds and nanoseconds.
fn put_time<W: World>(world: &mut W, buffer: u64, seconds: u64, nanoseconds: u64)
    requires { IsInRam buffer 4096 }
    ensures ram { W.ram world.new ≡ lane_after (W.ram world.old)
        (number_write (p_at buffer 0) seconds ∷ number_write (q_at buffer 0) nanoseconds ∷ []) }
    ensures made { W.made world.new ≡ W.made world.old }
{
    put_number(world, p_at(buffer, 0), seconds);
    put_number(world, q_at(buffer, 0), nanoseconds);
}

/// Writes a number of eight bytes.
fn put_number<W: World>(world: &mut W, addr: u64, number: u64)
    requires { IsInRam addr 8 }
    ensures ram { W.ram world.new ≡ bytes_put (W.ram world.old) addr (to_le_bytes w64 number) }
    ensures made { W.made world.new ≡ W.made world.old }
{
    world.poke(addr, &number.to_le_bytes());
}

/// Writes the bytes of a read, where there are any.
fn put_payload<W: World>(world: &mut W, buffer: u64, bytes: &[u8])
    requires in_ram { IsInRam buffer 4096 }
    requires room { length bytes.now ≤ 3584 }
    ensures ram { W.ram world.new ≡ lane_after (W.ram world.old) (payload_writes buffer bytes.now) }
    ensures made { W.made world.new ≡ W.made world.old }
{
    if !bytes.is_empty() {
        world.poke(buffer + PAYLOAD_OFFSET, bytes);
    }
}
