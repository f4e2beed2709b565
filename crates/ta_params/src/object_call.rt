/// What an application asks of its storage. This project's own, after the persistent objects of the
/// GlobalPlatform TEE Internal Core API.
///
/// An id is `len` bytes at the address `id`. A handle is one that a create or an open gave, and the bytes
/// read or written are `len` bytes at `addr`, all of them in the application's memory or its parameters.
#[derive(Clone, Copy, Debug)]
pub enum ObjectCall {
    Create { id: u32, len: u32 },
    Opened { id: u32, len: u32 },
    Read { handle: u32, addr: u32, len: u32 },
    Write { handle: u32, addr: u32, len: u32 },
    Seek { handle: u32, position: u32 },
    Close { handle: u32 },
    Delete { handle: u32 },
}
