ghost use Rattle.std.specs.Prelude.{◌≡◌, ◌≢◌, ◌↔◌, All, slice_index};
ghost use Rattle.smc_abi.specs.Call.{call_of, call_table};

use crate::regs::Regs;

/// `OPTEE_SMC_CALLS_UID`: which API this is, as the four words of a UUID.
pub const CALLS_UID: u32 = 0xbf00_ff01;
/// `OPTEE_SMC_CALLS_REVISION`: the revision of the API.
pub const CALLS_REVISION: u32 = 0xbf00_ff03;
/// `OPTEE_SMC_CALL_GET_OS_UUID`: which trusted OS this is, as the four words of a UUID.
pub const GET_OS_UUID: u32 = 0xb200_0000;
/// `OPTEE_SMC_CALL_GET_OS_REVISION`: the revision of the trusted OS.
pub const GET_OS_REVISION: u32 = 0xb200_0001;
/// `OPTEE_SMC_GET_SHM_CONFIG`: where the reserved shared memory lies.
pub const GET_SHM_CONFIG: u32 = 0xb200_0007;
/// `OPTEE_SMC_EXCHANGE_CAPABILITIES`: a1 has the normal world's capabilities.
pub const EXCHANGE_CAPABILITIES: u32 = 0xb200_0009;
/// `OPTEE_SMC_DISABLE_SHM_CACHE`: gives cached shared memory back.
pub const DISABLE_SHM_CACHE: u32 = 0xb200_000a;
/// `OPTEE_SMC_ENABLE_SHM_CACHE`: lets shared memory be cached.
pub const ENABLE_SHM_CACHE: u32 = 0xb200_000b;
/// `OPTEE_SMC_GET_THREAD_COUNT`: how many calls may be under way at once.
pub const GET_THREAD_COUNT: u32 = 0xb200_000f;
/// `OPTEE_SMC_CALL_RETURN_FROM_RPC`: a3 has the thread, a7 the client; after an ALLOC a1 and a2 have the
/// buffer's address and a4 and a5 its cookie, upper half first.
pub const RETURN_FROM_RPC: u32 = 0x3200_0003;
/// `OPTEE_SMC_CALL_WITH_ARG`: a1 and a2 have the argument's physical address, upper half first, and
/// a7 has the client.
pub const CALL_WITH_ARG: u32 = 0x3200_0004;
/// `OPTEE_SMC_CALL_WITH_RPC_ARG`: as `CALL_WITH_ARG`, with room for the argument of an RPC behind the message
/// argument.
pub const CALL_WITH_RPC_ARG: u32 = 0x3200_0012;
/// `OPTEE_SMC_CALL_WITH_REGD_ARG`: the same in registered shared memory, whose cookie a1 and a2 have, upper half
/// first; a3 has the argument's offset there, and a7 the client.
pub const CALL_WITH_REGD_ARG: u32 = 0x3200_0013;

/// A call that is answered at once, from its registers and the number of threads.
#[derive(Clone, Copy)]
pub enum FastCall {
    CallsUid,
    CallsRevision,
    OsUuid,
    OsRevision,
    ShmConfig,
    Capabilities,
    DisableShmCache,
    EnableShmCache,
    ThreadCount,
}

/// What a call's registers ask for.
#[derive(Clone, Copy)]
pub enum Call {
    Fast(FastCall),
    /// A new yielding call, with a message argument in shared memory.
    WithArg,
    /// The same, which brings a place for its requests behind its argument.
    WithRpcArg,
    /// The same in registered memory, where it is named by a cookie.
    WithRegdArg,
    /// Goes on with a yielding call that was answered by an RPC.
    Resume,
    /// No function of this core.
    Unknown,
}

/// The call that a0 names, as a whole id.
pub fn decode_call(regs: &Regs) -> Call
    ensures row { result ≡ call_of (slice_index regs.now.a 0) }
    ensures unknown { (result ≡ Call.Unknown) ↔ All (λ row. row.0 ≢ slice_index regs.now.a 0) call_table }
{
    named_call(regs.a[0])
}

fn named_call(id: u32) -> Call
    ensures { result ≡ call_of id }
{
    match id {
        CALLS_UID => Call::Fast(FastCall::CallsUid),
        CALLS_REVISION => Call::Fast(FastCall::CallsRevision),
        GET_OS_UUID => Call::Fast(FastCall::OsUuid),
        GET_OS_REVISION => Call::Fast(FastCall::OsRevision),
        GET_SHM_CONFIG => Call::Fast(FastCall::ShmConfig),
        EXCHANGE_CAPABILITIES => Call::Fast(FastCall::Capabilities),
        DISABLE_SHM_CACHE => Call::Fast(FastCall::DisableShmCache),
        ENABLE_SHM_CACHE => Call::Fast(FastCall::EnableShmCache),
        GET_THREAD_COUNT => Call::Fast(FastCall::ThreadCount),
        RETURN_FROM_RPC => Call::Resume,
        CALL_WITH_ARG => Call::WithArg,
        CALL_WITH_RPC_ARG => Call::WithRpcArg,
        CALL_WITH_REGD_ARG => Call::WithRegdArg,
        _ => Call::Unknown,
    }
}

/// A law: each id of the table is the call that stands beside it.
pub fn call_of_each_row()
    ensures { All (λ row. call_of row.0 ≡ row.1) call_table }
{}
