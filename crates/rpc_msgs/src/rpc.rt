ghost use Rattle.std.specs.Prelude.{◌≡◌};
ghost use Rattle.rpc_msgs.specs.Answer.{nothing_read};
ghost use Rattle.rpc_msgs.specs.Request.{has_payload};

use crate::file_name::FileName;
use crate::payload::Payload;

/// What a call asks the normal world for. The commands are those of OP-TEE's `optee_rpc_cmd.h`; the functions of files
/// and their parameters are this project's own.
#[derive(Clone, Debug, Drop)]
pub enum Rpc {
    /// The time of day, in seconds and nanoseconds.
    Time,
    /// To sleep until a wake with this key.
    Sleep(u32),
    /// To wake who sleeps with this key.
    Wake(u32),
    /// To be suspended for so many milliseconds.
    Suspend(u32),
    /// To open the file of this name.
    FsOpen(FileName),
    /// To create the file of this name.
    FsCreate(FileName),
    /// To close an open file.
    FsClose(u64),
    /// To read `len` bytes, at most 3584, of an open file from an offset on.
    FsRead { fd: u64, offset: u64, len: u32 },
    /// To write `len` bytes, at most 3584, to an open file from an offset on.
    FsWrite { fd: u64, offset: u64, len: u32 },
    /// To remove the file of this name.
    FsRemove(FileName),
}

impl Rpc {
    /// Whether bytes go with it in a buffer, for the normal world or from it.
    pub fn has_payload(&self) -> bool
        ensures { result ≡ has_payload self.now }
    {
        match self {
            Rpc::FsOpen(_)
            | Rpc::FsCreate(_)
            | Rpc::FsRead { .. }
            | Rpc::FsWrite { .. }
            | Rpc::FsRemove(_) => true,
            Rpc::Time | Rpc::Sleep(_) | Rpc::Wake(_) | Rpc::Suspend(_) | Rpc::FsClose(_) => false,
        }
    }
}

/// What the normal world answered to a request. A field that the request doesn't read is 0, or empty.
#[derive(Clone, Drop)]
pub struct RpcReply {
    /// 0, or a code of the GlobalPlatform API.
    pub ret: u32,
    /// The first number: seconds of a time, the descriptor of an open file.
    pub v: u64,
    /// The second number: nanoseconds of a time.
    pub w: u64,
    /// How many bytes were read of a file.
    pub size: u64,
    /// These bytes, where they are no more than were asked for.
    pub bytes: Payload,
}

impl RpcReply {
    /// A reply of which nothing is read.
    pub fn nothing_read() -> RpcReply
        ensures { result ≡ nothing_read }
    {
        RpcReply {
            ret: 0,
            v: 0,
            w: 0,
            size: 0,
            bytes: Payload::new(),
        }
    }
}
