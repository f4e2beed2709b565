use rpc_msgs::Rpc;
use ta_params::{Buf, CopiedParams};

/// What one session is answered, or one of a group's. No thread, address, cookie or session number stands in it. This
/// project's own.
#[derive(Drop)]
pub enum OwnReply {
    /// A call wants a buffer for its request.
    Alloc,
    /// A call sleeps until its session's instance is free.
    Sleep,
    /// A call wakes another call of its session or group.
    Wake {
        call: u32,
    },
    /// The application asks for this, with these bytes.
    Ask {
        rpc: Rpc,
        payload: Buf,
    },
    /// A call gives its buffer back.
    Free,
    /// A call has ended. A parameter that isn't written back is `Empty`, a memory parameter has the bytes that are
    /// written.
    Ended {
        result: u32,
        origin: u32,
        outputs: CopiedParams,
    },
    /// No thread was free.
    Limited,
}
