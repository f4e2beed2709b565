use rpc_msgs::RpcReply;

/// What a call is resumed with.
#[derive(Drop)]
pub enum ResumeInput {
    /// Nothing: it gave its buffer back, or was interrupted.
    Nothing,
    /// The buffer that it asked for, with its cookie.
    Buffer { addr: u64, cookie: u64 },
    /// No buffer, though it asked for one.
    NoBuffer,
    /// The reply to its request, which stands apart: few are resumed with one, and it has room for the bytes of a file.
    Reply(Box<RpcReply>),
}
