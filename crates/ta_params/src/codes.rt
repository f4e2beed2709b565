//! The numbers of the GlobalPlatform API that a call's outcome is told with.

// Return codes: TEE Internal Core API, "API Return Codes".

/// The operation succeeded.
pub const TEE_SUCCESS: u32 = 0x0000_0000;
/// A stored object is corrupt.
pub const TEE_ERROR_CORRUPT_OBJECT: u32 = 0xF010_0001;
/// The storage can't be reached.
pub const TEE_ERROR_STORAGE_NOT_AVAILABLE: u32 = 0xF010_0003;
/// A failure without a code of its own.
pub const TEE_ERROR_GENERIC: u32 = 0xFFFF_0000;
/// The caller has no right to it.
pub const TEE_ERROR_ACCESS_DENIED: u32 = 0xFFFF_0001;
/// The operation was cancelled.
pub const TEE_ERROR_CANCEL: u32 = 0xFFFF_0002;
/// Another use of the object stands in the way.
pub const TEE_ERROR_ACCESS_CONFLICT: u32 = 0xFFFF_0003;
/// The parameters are none that the operation takes.
pub const TEE_ERROR_BAD_PARAMETERS: u32 = 0xFFFF_0006;
/// The operation isn't possible in this state.
pub const TEE_ERROR_BAD_STATE: u32 = 0xFFFF_0007;
/// There is no such item.
pub const TEE_ERROR_ITEM_NOT_FOUND: u32 = 0xFFFF_0008;
/// The operation exists, but isn't supported.
pub const TEE_ERROR_NOT_SUPPORTED: u32 = 0xFFFF_000A;
/// There is too little memory.
pub const TEE_ERROR_OUT_OF_MEMORY: u32 = 0xFFFF_000C;
/// It is in use.
pub const TEE_ERROR_BUSY: u32 = 0xFFFF_000D;
/// The buffer is too short for the output.
pub const TEE_ERROR_SHORT_BUFFER: u32 = 0xFFFF_0010;
/// The application has panicked.
pub const TEE_ERROR_TARGET_DEAD: u32 = 0xFFFF_3024;

// Origins of a return code: TEE Client API, "Return Code Origins", under the names that OP-TEE's
// `tee_api_defines.h` gives them on this side.

/// The client's own library.
pub const TEE_ORIGIN_API: u32 = 1;
/// What carries the messages between the two worlds.
pub const TEE_ORIGIN_COMMS: u32 = 2;
/// The TEE, outside the application.
pub const TEE_ORIGIN_TEE: u32 = 3;
/// The application.
pub const TEE_ORIGIN_TRUSTED_APP: u32 = 4;

// Types of a parameter: TEE Internal Core API, "Parameter Types".

/// The parameter isn't used.
pub const TEE_PARAM_TYPE_NONE: u32 = 0;
/// Two numbers, from the client.
pub const TEE_PARAM_TYPE_VALUE_INPUT: u32 = 1;
/// Two numbers, to the client.
pub const TEE_PARAM_TYPE_VALUE_OUTPUT: u32 = 2;
/// Two numbers, from the client and back.
pub const TEE_PARAM_TYPE_VALUE_INOUT: u32 = 3;
/// Memory, read.
pub const TEE_PARAM_TYPE_MEMREF_INPUT: u32 = 5;
/// Memory, written.
pub const TEE_PARAM_TYPE_MEMREF_OUTPUT: u32 = 6;
/// Memory, read and written.
pub const TEE_PARAM_TYPE_MEMREF_INOUT: u32 = 7;
