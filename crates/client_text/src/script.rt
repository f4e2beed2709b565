use base::Sequence;
use ta_isa::Boot;
use trace_text::Fill;
use uuid::Uuid;

/// A parameter that a call sends.
#[derive(Drop)]
pub enum ScriptParam {
    /// Nothing at its place.
    Empty,
    /// Two numbers for the application.
    ValueIn { a: u32, b: u32 },
    /// Two numbers from the application.
    ValueOut,
    /// Two numbers for the application, which it may change.
    ValueInout { a: u32, b: u32 },
    /// Bytes for the application, 1 to 65,536.
    MemoryIn { bytes: Sequence<u8> },
    /// Room for bytes from the application, 1 to 65,536.
    MemoryOut { len: u32 },
    /// Bytes for the application, which it may change, 1 to 65,536.
    MemoryInout { bytes: Sequence<u8> },
}

/// A call of a client. Its session goes by a name of 1 to 16 lower-case letters.
#[derive(Drop)]
pub enum ScriptCall {
    /// Opens a session with an application, under a name that stands for it from then on.
    Open {
        name: Sequence<u8>,
        uuid: Uuid,
        params: Sequence<ScriptParam>,
    },
    /// Invokes a function. It is cancelled before its RPC return of a number is answered, 1 to 1000, if that comes.
    Invoke {
        name: Sequence<u8>,
        func: u32,
        cancel_after: Option<u32>,
        params: Sequence<ScriptParam>,
    },
    /// Closes the session.
    Close {
        name: Sequence<u8>,
    },
}

/// What a client does on a core, one call after the other. Each has at most four parameters. Without a boot there are no fills
/// and no calls.
#[derive(Drop)]
pub struct Script {
    /// What the core is booted with, which has at least two threads.
    pub boot: Option<Boot>,
    /// Bytes that stand in RAM at the start.
    pub fills: Sequence<Fill>,
    pub calls: Sequence<ScriptCall>,
}
