use rpc_msgs::{Payload, Rpc};

/// The panic of an application whose call names a handle of which no object is open. This project's own.
pub const BAD_HANDLE: u32 = 5;

/// What a call on an object comes to next.
#[derive(Drop)]
pub enum StorageStep {
    /// It asks the normal world for this, with these bytes.
    Ask { rpc: Rpc, payload: Payload },
    /// It has this result, and a number beside it: the handle of a create or an open, how many bytes were read,
    /// and else 0.
    Done { result: u32, value: u32 },
    /// The application panics, with this code: BAD_HANDLE where no object is open of the call's handle.
    Panic(u32),
}
