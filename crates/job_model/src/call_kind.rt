/// What a call asks for. This project's own.
#[derive(Clone, Copy)]
pub enum CallKind {
    /// `OPTEE_MSG_CMD_OPEN_SESSION`.
    Open,
    /// `OPTEE_MSG_CMD_INVOKE_COMMAND`, with the number of the function.
    Invoke { func: u32 },
    /// `OPTEE_MSG_CMD_CLOSE_SESSION`.
    Close,
    /// Nothing more: its result was settled at its entry.
    Settled,
}
