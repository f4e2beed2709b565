//! The reply to a request, and the list of what was read of it.

ghost use Rattle.std.specs.Prelude.{◌≡◌, ◌≤◌, List, length, take, OnErr, OnOk, Some};
ghost use Rattle.std.specs.Int.{from_le_bytes, to_le_bytes, w32, w64};
ghost use Rattle.ns_ram.specs.Lane.{IsInRam, bytes_at};
ghost use Rattle.ns_ram.specs.Reader.{lane_bytes, outcome_over, over_lane};
ghost use Rattle.ns_ram.specs.declared.read.Read.{Read};
ghost use Rattle.rpc_msgs.specs.Answer.{HasBytes, IsReplyTo, nothing_read};
ghost use Rattle.rpc_msgs.specs.Place.{HasPlaces, arg_at, buffer_at, reader_at};
ghost use Rattle.rpc_msgs.specs.Reply.{descriptor_of, piece_of, reply_reader, ret_alone, time_of, with_descriptor, with_piece, with_reply, with_ret, with_time};
ghost use Rattle.rpc_msgs.specs.Request.{IsRequest};

use crate::request::PAYLOAD_OFFSET;
use crate::request_place::RequestPlace;
use crate::rpc::{Rpc, RpcReply};
use base::NoMemory;
use byteorder::{ByteOrder, LittleEndian};
use msg_args::{p_at, q_at, ret_at};
use ns_ram::{Lane, Reads};
use std::alloc::Global;

/// Reads the reply to a request whose argument stands at `at`, and its payload, if it has one, in the buffer at `buffer`:
/// each number by itself, whatever the result says, and the bytes of a read where there are any. Takes no memory.
pub fn read_reply(lane: &Lane, at: u64, buffer: Option<u64>, rpc: &Rpc) -> RpcReply
    requires places { HasPlaces at buffer rpc.now }
    requires request { IsRequest rpc.now }
    ensures reply { outcome_over (reply_reader at buffer rpc.now) lane.now ≡ Some result }
    ensures kind { IsReplyTo rpc.now result }
    // What is read, and in which order.
    ensures reads { (before : List Read) → over_lane (reply_reader at buffer rpc.now) lane.now before
        ≡ Some (result, with_reply at buffer rpc.now result before) }
{
    let mut reply = RpcReply::nothing_read();
    fill_reply(lane, at, buffer, rpc, &mut reply);
    reply
}

/// Reads the reply as `read_reply` does, where it stands.
fn fill_reply(lane: &Lane, at: u64, buffer: Option<u64>, rpc: &Rpc, reply: &mut RpcReply)
    requires places { HasPlaces at buffer rpc.now }
    requires request { IsRequest rpc.now }
    requires blank { reply.old ≡ nothing_read }
    ensures reads { (before : List Read) → over_lane (reply_reader at buffer rpc.now) lane.now before
        ≡ Some (reply.new, with_reply at buffer rpc.now reply.new before) }
    ensures kind { IsReplyTo rpc.now reply.new }
{
    match rpc {
        Rpc::Sleep(_) | Rpc::Wake(_) | Rpc::Suspend(_) => {}
        Rpc::Time => fill_time(lane, at, reply),
        Rpc::FsOpen(_) | Rpc::FsCreate(_) => fill_descriptor(lane, at, reply),
        Rpc::FsRead { len, .. } => fill_piece(lane, at, buffer.unwrap_or(0), *len, reply),
        Rpc::FsClose(_) | Rpc::FsWrite { .. } | Rpc::FsRemove(_) => fill_ret(lane, at, reply),
    }
}

/// Reads the reply to a request at its place as `read_reply` does into one of which nothing is read, so that its bytes move
/// once, and lists what it read. At want of memory the list is as it was.
pub fn take_reply(
    alloc: Global,
    lane: &Lane,
    place: &RequestPlace,
    rpc: &Rpc,
    reply: &mut RpcReply,
    reads: &mut Reads,
) -> Result<(), NoMemory>
    requires places { HasPlaces (arg_at place.now) (buffer_at place.now) rpc.now }
    requires request { IsRequest rpc.now }
    requires blank { reply.old ≡ nothing_read }
    ensures ok { OnOk result (over_lane (reader_at place.now rpc.now) lane.now reads.old ≡ Some (reply.new, reads.new)) }
    ensures kind { IsReplyTo rpc.now reply.new }
    ensures err { OnErr result (reads.new ≡ reads.old) }
{
    let at = place.arg();
    let buffer = place.buffer_at();
    fill_reply(lane, at, buffer, rpc, reply);
    let before = reads.len();
    let listed = list_reply(alloc, at, buffer, rpc, reply, reads);
    if listed.is_err() {
        reads.truncate(before);
    }
    listed
}

/// Lists the reads of which a reply came.
fn list_reply(
    alloc: Global,
    at: u64,
    buffer: Option<u64>,
    rpc: &Rpc,
    reply: &RpcReply,
    reads: &mut Reads,
) -> Result<(), NoMemory>
    requires { HasPlaces at buffer rpc.now }
    ensures ok { OnOk result (reads.new ≡ with_reply at buffer rpc.now reply.now reads.old) }
    ensures kept { take (length reads.old) reads.new ≡ reads.old }
{
    match rpc {
        Rpc::Sleep(_) | Rpc::Wake(_) | Rpc::Suspend(_) => return Ok(()),
        _ => reads.add(alloc, ret_at(at), &reply.ret.to_le_bytes())?,
    }
    match rpc {
        Rpc::Time => {
            reads.add(alloc, p_at(at, 0), &reply.v.to_le_bytes())?;
            reads.add(alloc, q_at(at, 0), &reply.w.to_le_bytes())
        }
        Rpc::FsOpen(_) | Rpc::FsCreate(_) => {
            reads.add(alloc, p_at(at, 2), &reply.v.to_le_bytes())
        }
        Rpc::FsRead { .. } => {
            reads.add(alloc, q_at(at, 1), &reply.size.to_le_bytes())?;
            let payload = buffer.unwrap_or(0) + PAYLOAD_OFFSET;
            reads.add(alloc, payload, reply.bytes.bytes())
        }
        _ => Ok(()),
    }
}

fn fill_time(lane: &Lane, at: u64, reply: &mut RpcReply)
    requires in_ram { IsInRam at 160 }
    requires blank { reply.old ≡ nothing_read }
    ensures reads { (before : List Read) → over_lane (time_of at) lane.now before
        ≡ Some (reply.new, with_time at reply.new before) }
    ensures kind { reply.new ≡ record nothing_read { ret = reply.new.ret; v = reply.new.v; w = reply.new.w } }
{
    reply.ret = u32_at(lane, ret_at(at));
    reply.v = u64_at(lane, p_at(at, 0));
    reply.w = u64_at(lane, q_at(at, 0));
}

fn fill_descriptor(lane: &Lane, at: u64, reply: &mut RpcReply)
    requires in_ram { IsInRam at 160 }
    requires blank { reply.old ≡ nothing_read }
    ensures reads { (before : List Read) → over_lane (descriptor_of at) lane.now before
        ≡ Some (reply.new, with_descriptor at reply.new before) }
    ensures kind { reply.new ≡ record nothing_read { ret = reply.new.ret; v = reply.new.v } }
{
    reply.ret = u32_at(lane, ret_at(at));
    reply.v = u64_at(lane, p_at(at, 2));
}

/// A piece of a file, of at most `most` bytes.
fn fill_piece(lane: &Lane, at: u64, buffer: u64, most: u32, reply: &mut RpcReply)
    requires argument { IsInRam at 160 }
    requires whole { IsInRam buffer 4096 }
    requires most { most ≤ 3584 }
    requires blank { reply.old ≡ nothing_read }
    ensures reads { (before : List Read) → over_lane (piece_of at buffer most) lane.now before
        ≡ Some (reply.new, with_piece at buffer reply.new before) }
    ensures kind { reply.new ≡ record nothing_read { ret = reply.new.ret; size = reply.new.size; bytes = reply.new.bytes } }
    ensures bytes { HasBytes most reply.new }
{
    reply.ret = u32_at(lane, ret_at(at));
    reply.size = u64_at(lane, q_at(at, 1));
    if reply.size <= u64::from(most) {
        reply
            .bytes
            .fill(bytes_of(lane, buffer + PAYLOAD_OFFSET, reply.size));
    }
}

fn fill_ret(lane: &Lane, at: u64, reply: &mut RpcReply)
    requires in_ram { IsInRam at 160 }
    requires blank { reply.old ≡ nothing_read }
    ensures reads { (before : List Read) → over_lane (ret_alone at) lane.now before
        ≡ Some (reply.new, with_ret at reply.new before) }
    ensures kind { reply.new ≡ record nothing_read { ret = reply.new.ret } }
{
    reply.ret = u32_at(lane, ret_at(at));
}

/// The number of four bytes at an address.
fn u32_at(lane: &Lane, addr: u64) -> u32
    requires { IsInRam addr 4 }
    ensures there { lane_bytes lane.now addr 4 ≡ Some (to_le_bytes w32 result) }
    ensures back { from_le_bytes w32 (to_le_bytes w32 result) ≡ result }
{
    u32_of(bytes_of(lane, addr, 4))
}

/// The number of eight bytes at an address.
fn u64_at(lane: &Lane, addr: u64) -> u64
    requires { IsInRam addr 8 }
    ensures there { lane_bytes lane.now addr 8 ≡ Some (to_le_bytes w64 result) }
    ensures back { from_le_bytes w64 (to_le_bytes w64 result) ≡ result }
{
    u64_of(bytes_of(lane, addr, 8))
}

/// The number that four bytes make.
fn u32_of(bytes: &[u8]) -> u32
    requires { length bytes.now ≡ 4 }
    ensures { to_le_bytes w32 result ≡ bytes.now }
{
    LittleEndian::read_u32(bytes)
}

/// The number that eight bytes make.
fn u64_of(bytes: &[u8]) -> u64
    requires { length bytes.now ≡ 8 }
    ensures { to_le_bytes w64 result ≡ bytes.now }
{
    LittleEndian::read_u64(bytes)
}

fn bytes_of(lane: &Lane, addr: u64, len: u64) -> &[u8]
    requires { IsInRam addr len }
    ensures bytes { result.now ≡ bytes_at lane.now addr len }
    ensures there { lane_bytes lane.now addr len ≡ Some result.now }
    ensures len { length result.now ≡ len }
{
    lane.at(addr, len)
}
