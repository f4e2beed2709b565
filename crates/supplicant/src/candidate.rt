//! The one request that a message can hold.

ghost use Rattle.std.specs.Prelude.{◌≡◌, ◌+◌, ◌<◌, ◌≤◌, ◌^◌, List, ℕ, length, take, IfSome, Some};
ghost use Rattle.msg_args.specs.declared.arg.MsgArg.{MsgArg as AnyArg};
ghost use Rattle.msg_args.specs.Spelling.{IsArgument};
ghost use Rattle.rpc_msgs.specs.declared.rpc.Rpc.{Rpc as AnyRpc};
ghost use Rattle.rpc_msgs.specs.Request.{IsPayloadOf, IsRequest};
ghost use Rattle.supplicant.specs.Candidate.{file_request_in, front_of, len_in, name_in, notification_in, of_command, rpc_in, u32_in};
ghost use Rattle.supplicant.specs.Holding.{BeginsWith, Holds, IsValue};

use crate::request::Request;
use msg_args::{MsgArg, MsgParam, read_arg, read_head};
use rpc_msgs::commands::{
    OPTEE_RPC_CMD_FS, OPTEE_RPC_CMD_GET_TIME, OPTEE_RPC_CMD_NOTIFICATION, OPTEE_RPC_CMD_SUSPEND,
    OPTEE_RPC_FS_CLOSE, OPTEE_RPC_FS_CREATE, OPTEE_RPC_FS_OPEN, OPTEE_RPC_FS_READ,
    OPTEE_RPC_FS_REMOVE, OPTEE_RPC_FS_WRITE, OPTEE_RPC_NOTIFICATION_SEND,
    OPTEE_RPC_NOTIFICATION_WAIT,
};
use rpc_msgs::{FileName, MAX_FILE_NAME, MAX_PAYLOAD, PAYLOAD_OFFSET, Payload, Rpc};

/// The most parameters of a request.
const MAX_REQUEST_PARAMS: u32 = 3;

/// The one request that a message can hold. Whether its bytes are those of that request is not asked here.
pub(crate) fn candidate(message: &[u8]) -> Option<Request>
    requires { length message.now ≡ 4096 }
    ensures value { IfSome result (λ request. IsValue request.rpc × IsRequest request.rpc × IsPayloadOf request.rpc request.payload) }
    ensures only { (buffer cookie : ℕ) (rpc : AnyRpc) (payload : List ℕ) → buffer + 512 < 2 ^ 64 → cookie < 2 ^ 64
        → Holds message.now buffer cookie rpc payload → result ≡ Some (record { rpc = rpc; payload = payload }) }
{
    let arg = argument_in(message)?;
    let payload = &message[PAYLOAD_OFFSET as usize..];
    let rpc = rpc_in(&arg, payload)?;
    with_payload(rpc, payload)
}

/// The argument at the start of a message, if it has at most three parameters.
fn argument_in(message: &[u8]) -> Option<MsgArg>
    requires { length message.now ≡ 4096 }
    ensures fits { IfSome result (λ arg. IsArgument arg) }
    ensures only { (arg : AnyArg) → IsArgument arg → arg.head.count ≤ 3 → BeginsWith message.now arg
        → result ≡ Some arg }
{
    let (head, _) = message.split_first_chunk::<32>()?;
    let count = read_head(head).count;
    if count > MAX_REQUEST_PARAMS {
        return None;
    }
    read_arg(&message[..32 + 32 * count as usize]).ok()
}

/// A request with the payload that goes with it, of these bytes, if a message has room for that.
fn with_payload(rpc: Rpc, bytes: &[u8]) -> Option<Request>
    requires { length bytes.now ≡ 3584 }
    ensures value { IfSome result (λ request. (request.rpc ≡ rpc) × IsRequest rpc × IsPayloadOf rpc request.payload) }
    ensures only { (payload : List ℕ) → IsRequest rpc → IsPayloadOf rpc payload
        → take (length payload) bytes.now ≡ payload → result ≡ Some (record { rpc = rpc; payload = payload }) }
{
    let payload = payload_of(&rpc, bytes)?;
    Some(Request { rpc, payload })
}

#[tactic(auto, using(crate::proofs::Candidates::front_is, crate::proofs::Candidates::front_only))]
fn payload_of(rpc: &Rpc, bytes: &[u8]) -> Option<Payload>
    requires { length bytes.now ≡ 3584 }
    ensures value { IfSome result (λ payload. IsRequest rpc.now × IsPayloadOf rpc.now payload) }
    ensures only { (payload : List ℕ) → IsRequest rpc.now → IsPayloadOf rpc.now payload
        → take (length payload) bytes.now ≡ payload → result ≡ Some payload }
{
    match rpc {
        Rpc::FsOpen(name) | Rpc::FsCreate(name) | Rpc::FsRemove(name) => {
            Some(Payload::of(name.bytes()))
        }
        Rpc::FsWrite { len, .. } => front(bytes, *len),
        Rpc::FsRead { len, .. } => {
            if *len as usize > MAX_PAYLOAD {
                None
            } else {
                Some(Payload::new())
            }
        }
        Rpc::Time | Rpc::Sleep(_) | Rpc::Wake(_) | Rpc::Suspend(_) | Rpc::FsClose(_) => {
            Some(Payload::new())
        }
    }
}

/// The first `len` bytes, if a message has room for so many.
fn front(bytes: &[u8], len: u32) -> Option<Payload>
    requires { length bytes.now ≡ 3584 }
    ensures { result ≡ front_of bytes.now len }
{
    if len as usize > MAX_PAYLOAD {
        return None;
    }
    Some(Payload::of(&bytes[..len as usize]))
}

/// The request that an argument can be, by its command, with a name in these bytes.
#[tactic(auto, using(crate::proofs::Candidates::none_given, crate::proofs::Candidates::one_given))]
fn rpc_in(arg: &MsgArg, payload: &[u8]) -> Option<Rpc>
    requires { length payload.now ≡ 3584 }
    ensures { result ≡ rpc_in arg.now payload.now }
{
    let (of, others) = arg.params.as_slice().split_first()?;
    of_command(arg.head.cmd, of, len_in(others), payload)
}

fn of_command(cmd: u32, of: &MsgParam, len: u64, payload: &[u8]) -> Option<Rpc>
    requires { length payload.now ≡ 3584 }
    ensures { result ≡ of_command cmd of.now len payload.now }
{
    match cmd {
        OPTEE_RPC_CMD_FS => file_request_in(of, len, payload),
        OPTEE_RPC_CMD_GET_TIME => Some(Rpc::Time),
        OPTEE_RPC_CMD_NOTIFICATION => notification_in(of),
        OPTEE_RPC_CMD_SUSPEND => Some(Rpc::Suspend(u32_in(of.p)?)),
        _ => None,
    }
}

/// To sleep, or to wake who sleeps.
fn notification_in(of: &MsgParam) -> Option<Rpc>
    ensures { result ≡ notification_in of.now }
{
    match of.p {
        OPTEE_RPC_NOTIFICATION_WAIT => Some(Rpc::Sleep(u32_in(of.q)?)),
        OPTEE_RPC_NOTIFICATION_SEND => Some(Rpc::Wake(u32_in(of.q)?)),
        _ => None,
    }
}

/// A function of the file system, by its number.
fn file_request_in(of: &MsgParam, len: u64, payload: &[u8]) -> Option<Rpc>
    requires { length payload.now ≡ 3584 }
    ensures { result ≡ file_request_in of.now len payload.now }
{
    let (fd, offset) = (of.q, of.s);
    match of.p {
        OPTEE_RPC_FS_OPEN => Some(Rpc::FsOpen(name_in(payload, len)?)),
        OPTEE_RPC_FS_CREATE => Some(Rpc::FsCreate(name_in(payload, len)?)),
        OPTEE_RPC_FS_CLOSE => Some(Rpc::FsClose(fd)),
        OPTEE_RPC_FS_READ => Some(Rpc::FsRead {
            fd,
            offset,
            len: u32_in(len)?,
        }),
        OPTEE_RPC_FS_WRITE => Some(Rpc::FsWrite {
            fd,
            offset,
            len: u32_in(len)?,
        }),
        OPTEE_RPC_FS_REMOVE => Some(Rpc::FsRemove(name_in(payload, len)?)),
        _ => None,
    }
}

/// How many bytes the second parameter counts, if there is one.
#[tactic(auto, using(crate::proofs::Candidates::none_counted, crate::proofs::Candidates::one_counted))]
fn len_in(others: &[MsgParam]) -> u64
    ensures { result ≡ len_in others.now }
{
    match others.split_first() {
        Some((second, _)) => second.q,
        None => 0,
    }
}

/// A number of four bytes, where it is one.
fn u32_in(number: u64) -> Option<u32>
    ensures { result ≡ u32_in number }
{
    if number > u32::MAX as u64 {
        return None;
    }
    Some(number as u32)
}

/// The name of a file that the first `len` bytes are, where they are one.
#[tactic(auto, using(crate::proofs::Candidates::name_tried, crate::proofs::Candidates::name_too_long))]
fn name_in(payload: &[u8], len: u64) -> Option<FileName>
    requires { length payload.now ≡ 3584 }
    ensures { result ≡ name_in payload.now len }
{
    if len > MAX_FILE_NAME as u64 {
        return None;
    }
    FileName::new(&payload[..len as usize]).ok()
}
