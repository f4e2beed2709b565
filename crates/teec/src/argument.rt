//! The arguments of a client's calls.

ghost use Rattle.std.specs.Prelude.{◌≡◌, ◌≤◌, ◌++◌, length};
ghost use Rattle.teec.specs.Arguments.{argument_of, cancel_argument, close_argument, invoke_argument, name_of, nobody, open_argument};
ghost use Rattle.teec.specs.Operation.{IsSendable, Sends, params_sent};

use crate::operation::Operation;
use crate::params::param_sent;
use crate::places::CANCEL_ID;
use arrayvec::ArrayVec;
use byteorder::{ByteOrder, LittleEndian};
use msg_args::{
    MsgArg, MsgHead, MsgParam, OPTEE_MSG_CMD_CANCEL, OPTEE_MSG_CMD_CLOSE_SESSION,
    OPTEE_MSG_CMD_INVOKE_COMMAND, OPTEE_MSG_CMD_OPEN_SESSION, ParamKind,
};
use uuid::Uuid;

/// Of an open: the application, the client, which has no name, and as many of the operation's parameters as are sent.
pub(crate) fn open_argument(uuid: Uuid, op: &Operation, sent: u32) -> MsgArg
    requires fits { IsSendable op.now }
    requires sent { Sends op.now sent }
    ensures { result ≡ open_argument uuid op.now sent }
{
    let mut params = ArrayVec::new();
    params.push(name_of(uuid.as_bytes()));
    params.push(nobody());
    push_sent(&mut params, op, sent);
    argument_of(OPTEE_MSG_CMD_OPEN_SESSION, 0, 0, params)
}

/// Of an invoke: as many of the operation's parameters as are sent.
pub(crate) fn invoke_argument(session: u32, func: u32, op: &Operation, sent: u32) -> MsgArg
    requires fits { IsSendable op.now }
    requires sent { Sends op.now sent }
    ensures { result ≡ invoke_argument session func op.now sent }
{
    let mut params = ArrayVec::new();
    push_sent(&mut params, op, sent);
    argument_of(OPTEE_MSG_CMD_INVOKE_COMMAND, func, session, params)
}

pub(crate) fn close_argument(session: u32) -> MsgArg
    ensures { result ≡ close_argument session }
{
    argument_of(OPTEE_MSG_CMD_CLOSE_SESSION, 0, session, ArrayVec::new())
}

/// Of the cancellation of a call in a session.
pub(crate) fn cancel_argument(session: u32) -> MsgArg
    ensures { result ≡ cancel_argument session }
{
    argument_of(OPTEE_MSG_CMD_CANCEL, 0, session, ArrayVec::new())
}

fn argument_of(cmd: u32, func: u32, session: u32, params: ArrayVec<MsgParam, 6>) -> MsgArg
    ensures { result ≡ argument_of cmd func session params.items }
{
    let head = MsgHead {
        cmd,
        func,
        session,
        cancel_id: CANCEL_ID,
        pad: 0,
        ret: 0,
        origin: 0,
        count: params.len() as u32,
    };
    MsgArg { head, params }
}

/// Appends the operation's parameters that are sent.
fn push_sent(params: &mut ArrayVec<MsgParam, 6>, op: &Operation, sent: u32)
    requires room { length params.old.items ≤ 2 }
    requires fits { IsSendable op.now }
    requires sent { Sends op.now sent }
    ensures { params.new.items ≡ params.old.items ++ params_sent op.now sent }
{
    let all = [
        param_sent(0, &op.params.p0),
        param_sent(1, &op.params.p1),
        param_sent(2, &op.params.p2),
        param_sent(3, &op.params.p3),
    ];
    params.try_extend_from_slice(&all[..sent as usize]).unwrap();
}

/// The application of a UUID, whose octets stand in p and q.
fn name_of(octets: &[u8; 16]) -> MsgParam
    ensures { result ≡ name_of octets.now }
{
    MsgParam {
        p: LittleEndian::read_u64(&octets[..8]),
        q: LittleEndian::read_u64(&octets[8..]),
        ..nobody()
    }
}

/// The client: the nil UUID, and `TEE_LOGIN_PUBLIC`, which is 0.
fn nobody() -> MsgParam
    ensures { result ≡ nobody }
{
    MsgParam {
        kind: ParamKind::ValueIn,
        meta: true,
        ..MsgParam::default()
    }
}
