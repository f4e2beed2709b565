/// A buffer of the normal world, in which a call writes its requests.
#[derive(Clone, Copy)]
pub struct RpcBuffer {
    pub addr: u64,
    pub cookie: u64,
}
