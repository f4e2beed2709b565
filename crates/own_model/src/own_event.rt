use boxed::Boxed;
use rpc_msgs::RpcReply;
use ta_params::{CopiedParams, Login};

/// What came of the parameters of an invoke.
#[derive(Drop)]
pub enum OwnInput {
    /// They were copied.
    Copied(CopiedParams),
    /// One of them had a fault.
    Faulty,
    /// They weren't read, since the instance was dead.
    Unread,
}

/// What a resume brought a call that had asked for something.
#[derive(Drop)]
pub enum BackInput {
    /// Nothing: the call had given its buffer back.
    Nothing,
    /// The buffer that it wanted.
    Buffer,
    /// No buffer.
    NoBuffer,
    /// The reply to its request, which stands apart: it has room for the bytes of a file, and few calls come back with one.
    Reply(Boxed<RpcReply>),
}

/// What happens to one session. Its calls are numbered from 0 in the order in which they come in. This project's
/// own.
#[derive(Drop)]
pub enum OwnEvent {
    /// The open comes in, which is the session's first call. Of each call `area` says whether it has an area for the
    /// arguments of its requests.
    Open {
        params: CopiedParams,
        login: Login,
        area: bool,
    },
    /// An invoke of a function comes in.
    Invoke {
        func: u32,
        input: OwnInput,
        area: bool,
    },
    /// A close comes in.
    Close {
        area: bool,
    },
    /// A cancel comes in.
    Cancel,
    /// A call sees that it was cancelled, after so many steps.
    Seen {
        call: u32,
        steps: u128,
    },
    /// A call comes back with what it had asked for.
    Back {
        call: u32,
        input: BackInput,
    },
    /// A call goes out, other than interrupted.
    Out {
        call: u32,
    },
    /// A new call of the session's client goes out since no thread was free. Its argument was not read: it may have
    /// been meant for another session of that client.
    Limited,
}
