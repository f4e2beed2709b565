//! The message of a request.

ghost use Rattle.std.specs.Prelude.{◌≡◌, ◌<◌, ◌≤◌, ◌^◌, ℕ, List, [], ◌∷◌, length};
ghost use Rattle.std.specs.Option.{option_map};
ghost use Rattle.ns_ram.specs.Writes.{lane_after};
ghost use Rattle.rpc_msgs.specs.Place.{HasPlaces, arg_at, buffer_at, writes_at};
ghost use Rattle.rpc_msgs.specs.Request.{IsPayloadOf, IsRequest, argument, files, param, payload_in, payload_out, request_arg, request_writes, value_in, value_out};

use crate::commands::{
    OPTEE_RPC_CMD_FS, OPTEE_RPC_CMD_GET_TIME, OPTEE_RPC_CMD_NOTIFICATION, OPTEE_RPC_CMD_SUSPEND,
    OPTEE_RPC_FS_CLOSE, OPTEE_RPC_FS_CREATE, OPTEE_RPC_FS_OPEN, OPTEE_RPC_FS_READ,
    OPTEE_RPC_FS_REMOVE, OPTEE_RPC_FS_WRITE, OPTEE_RPC_NOTIFICATION_SEND,
    OPTEE_RPC_NOTIFICATION_WAIT,
};
use crate::file_name::FileName;
use crate::request_place::RequestPlace;
use crate::rpc::Rpc;
use arrayvec::ArrayVec;
use msg_args::{MsgArg, MsgHead, MsgParam, ParamKind, write_arg};
use ns_ram::Lane;

/// The bytes of a buffer for messages.
pub const MESSAGE_BYTES: u64 = 4096;

/// The bytes that the argument of a request takes up at most, wherever it stands: a head and four parameters.
pub const ARGUMENT_BYTES: u64 = 160;

/// Where the payload stands in its buffer.
pub const PAYLOAD_OFFSET: u64 = 512;

/// The result of a request that isn't answered.
const NO_RESULT: u32 = 0xffff0000;

/// Writes a request: its argument, all of its head and its parameters, at `at`, and then its payload in the buffer, of which
/// the address and the cookie are given. It changes no other byte, and takes no memory.
///
/// The payload is the name's bytes of a request that names a file, the `len` bytes of a write, and else empty.
pub fn put_request(lane: &mut Lane, at: u64, buffer: Option<(u64, u64)>, rpc: &Rpc, payload: &[u8])
    requires places { HasPlaces at (option_map (λ there. there.0) buffer) rpc.now }
    requires request { IsRequest rpc.now }
    requires payload { IsPayloadOf rpc.now payload.now }
    ensures { lane.new ≡ lane_after lane.old (request_writes at buffer rpc.now payload.now) }
{
    let (addr, cookie) = buffer.unwrap_or((0, 0));
    let arg = request_arg(addr, cookie, rpc);
    lane.write(at, write_arg(&arg).as_slice());
    if !payload.is_empty() {
        lane.write(addr + PAYLOAD_OFFSET, payload);
    }
}

/// Writes a request at its place, as `put_request` does.
pub fn put_request_at(lane: &mut Lane, place: &RequestPlace, rpc: &Rpc, payload: &[u8])
    requires places { HasPlaces (arg_at place.now) (buffer_at place.now) rpc.now }
    requires request { IsRequest rpc.now }
    requires payload { IsPayloadOf rpc.now payload.now }
    ensures { lane.new ≡ lane_after lane.old (writes_at place.now rpc.now payload.now) }
{
    put_request(lane, place.arg(), place.payload_place(), rpc, payload);
}

/// The argument of a request, whose payload, if it has one, stands in the buffer of this cookie at this address, below 2^63.
/// It has one to three parameters, and its result says that there is none yet.
pub fn request_arg(buffer: u64, cookie: u64, rpc: &Rpc) -> MsgArg
    requires { buffer < 2 ^ 63 }
    ensures arg { result ≡ request_arg buffer cookie rpc.now }
    // The payload has a place in the message.
    ensures room { (payload : List ℕ) → IsRequest rpc.now → IsPayloadOf rpc.now payload
        → length payload ≤ 3584 }
{
    match rpc {
        Rpc::Time => argument(OPTEE_RPC_CMD_GET_TIME, &[value_out()]),
        Rpc::Sleep(key) => notification(OPTEE_RPC_NOTIFICATION_WAIT, *key),
        Rpc::Wake(key) => notification(OPTEE_RPC_NOTIFICATION_SEND, *key),
        Rpc::Suspend(ms) => argument(OPTEE_RPC_CMD_SUSPEND, &[value_in(u64::from(*ms), 0, 0)]),
        Rpc::FsOpen(name) => opening(OPTEE_RPC_FS_OPEN, buffer, cookie, name),
        Rpc::FsCreate(name) => opening(OPTEE_RPC_FS_CREATE, buffer, cookie, name),
        Rpc::FsClose(fd) => files(OPTEE_RPC_FS_CLOSE, *fd, 0, &[]),
        Rpc::FsRead { fd, offset, len } => {
            let payload = payload_out(buffer, cookie, u64::from(*len));
            files(OPTEE_RPC_FS_READ, *fd, *offset, &[payload])
        }
        Rpc::FsWrite { fd, offset, len } => {
            let payload = payload_in(buffer, cookie, u64::from(*len));
            files(OPTEE_RPC_FS_WRITE, *fd, *offset, &[payload])
        }
        Rpc::FsRemove(name) => {
            let payload = payload_in(buffer, cookie, name_len(name));
            files(OPTEE_RPC_FS_REMOVE, 0, 0, &[payload])
        }
    }
}

/// To sleep, or to wake who sleeps.
fn notification(function: u64, key: u32) -> MsgArg
    ensures { result ≡ argument 4 (value_in function key 0 ∷ []) }
{
    argument(
        OPTEE_RPC_CMD_NOTIFICATION,
        &[value_in(function, u64::from(key), 0)],
    )
}

/// To open a file of a name, or to create it.
fn opening(function: u64, buffer: u64, cookie: u64, name: &FileName) -> MsgArg
    requires { buffer < 2 ^ 63 }
    ensures arg { result ≡ files function 0 0
        (payload_in buffer cookie (length name.now) ∷ value_out ∷ []) }
    ensures room { length name.now ≤ 3584 }
{
    let payload = payload_in(buffer, cookie, name_len(name));
    files(function, 0, 0, &[payload, value_out()])
}

/// A function of the file system, with the parameters behind its own.
fn files(function: u64, fd: u64, offset: u64, others: &[MsgParam]) -> MsgArg
    requires { length others.now ≤ 2 }
    ensures { result ≡ files function fd offset others.now }
{
    let mut params = ArrayVec::<MsgParam, 3>::new();
    params.push(value_in(function, fd, offset));
    params.try_extend_from_slice(others).unwrap();
    argument(OPTEE_RPC_CMD_FS, params.as_slice())
}

/// A command with its parameters.
fn argument(cmd: u32, params: &[MsgParam]) -> MsgArg
    requires { length params.now ≤ 6 }
    ensures { result ≡ argument cmd params.now }
{
    let head = MsgHead {
        cmd,
        func: 0,
        session: 0,
        cancel_id: 0,
        pad: 0,
        ret: NO_RESULT,
        origin: 0,
        count: params.len() as u32,
    };
    match ArrayVec::try_from(params) {
        Ok(params) => MsgArg { head, params },
        Err(_) => unreachable!(),
    }
}

/// How many bytes a name has.
fn name_len(name: &FileName) -> u64
    ensures len { result ≡ length name.now }
    ensures room { result ≤ 3584 }
{
    name.bytes().len() as u64
}

/// Numbers for the normal world.
fn value_in(p: u64, q: u64, s: u64) -> MsgParam
    ensures { result ≡ value_in p q s }
{
    param(ParamKind::ValueIn, p, q, s)
}

/// Numbers from the normal world.
fn value_out() -> MsgParam
    ensures { result ≡ value_out }
{
    param(ParamKind::ValueOut, 0, 0, 0)
}

/// `len` bytes of the payload, for the normal world.
fn payload_in(buffer: u64, cookie: u64, len: u64) -> MsgParam
    requires { buffer < 2 ^ 63 }
    ensures { result ≡ payload_in buffer cookie len }
{
    param(ParamKind::TmemIn, buffer + PAYLOAD_OFFSET, len, cookie)
}

/// `len` bytes of the payload, from the normal world.
fn payload_out(buffer: u64, cookie: u64, len: u64) -> MsgParam
    requires { buffer < 2 ^ 63 }
    ensures { result ≡ payload_out buffer cookie len }
{
    param(ParamKind::TmemOut, buffer + PAYLOAD_OFFSET, len, cookie)
}

fn param(kind: ParamKind, p: u64, q: u64, s: u64) -> MsgParam
    ensures { result ≡ param kind p q s }
{
    MsgParam {
        kind,
        meta: false,
        noncontig: false,
        cache: 0,
        p,
        q,
        s,
    }
}
