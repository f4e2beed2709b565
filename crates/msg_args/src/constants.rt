//! The numbers of the public header `optee_msg.h` that an argument is made of.

/// The command that opens a session with a trusted application.
pub const OPTEE_MSG_CMD_OPEN_SESSION: u32 = 0;

/// The command that invokes a function in an open session.
pub const OPTEE_MSG_CMD_INVOKE_COMMAND: u32 = 1;

/// The command that closes a session.
pub const OPTEE_MSG_CMD_CLOSE_SESSION: u32 = 2;

/// The command that cancels a call that is under way.
pub const OPTEE_MSG_CMD_CANCEL: u32 = 3;

/// The command that registers a buffer under a cookie.
pub const OPTEE_MSG_CMD_REGISTER_SHM: u32 = 4;

/// The command that takes a registered buffer back.
pub const OPTEE_MSG_CMD_UNREGISTER_SHM: u32 = 5;

/// The command that processes what an asynchronous notification told of.
pub const OPTEE_MSG_CMD_DO_BOTTOM_HALF: u32 = 6;

/// The command after which no asynchronous notification is sent.
pub const OPTEE_MSG_CMD_STOP_ASYNC_NOTIF: u32 = 7;

/// The bits of an attribute that name the kind of its parameter.
pub const OPTEE_MSG_ATTR_TYPE_MASK: u64 = 0xff;

/// No parameter.
pub const OPTEE_MSG_ATTR_TYPE_NONE: u8 = 0x0;

/// Values that the caller gives.
pub const OPTEE_MSG_ATTR_TYPE_VALUE_INPUT: u8 = 0x1;

/// Values that the caller gets.
pub const OPTEE_MSG_ATTR_TYPE_VALUE_OUTPUT: u8 = 0x2;

/// Values that go both ways.
pub const OPTEE_MSG_ATTR_TYPE_VALUE_INOUT: u8 = 0x3;

/// A part of a registered buffer that the caller has filled.
pub const OPTEE_MSG_ATTR_TYPE_RMEM_INPUT: u8 = 0x5;

/// A part of a registered buffer that is to be filled.
pub const OPTEE_MSG_ATTR_TYPE_RMEM_OUTPUT: u8 = 0x6;

/// A part of a registered buffer whose bytes go both ways.
pub const OPTEE_MSG_ATTR_TYPE_RMEM_INOUT: u8 = 0x7;

/// Memory at an address that the caller has filled.
pub const OPTEE_MSG_ATTR_TYPE_TMEM_INPUT: u8 = 0x9;

/// Memory at an address that is to be filled.
pub const OPTEE_MSG_ATTR_TYPE_TMEM_OUTPUT: u8 = 0xa;

/// Memory at an address whose bytes go both ways.
pub const OPTEE_MSG_ATTR_TYPE_TMEM_INOUT: u8 = 0xb;

/// Set where the parameter is about the call itself, and is not passed to the application.
pub const OPTEE_MSG_ATTR_META: u64 = 1 << 8;

/// Set where the address is that of a chain of lists of pages.
pub const OPTEE_MSG_ATTR_NONCONTIG: u64 = 1 << 9;

/// The lowest bit of the cache field.
pub const OPTEE_MSG_ATTR_CACHE_SHIFT: u32 = 16;

/// The bits of the cache field, once they are shifted down.
pub const OPTEE_MSG_ATTR_CACHE_MASK: u64 = 0x7;

/// The cache field of memory whose cache attributes both sides know.
pub const OPTEE_MSG_ATTR_CACHE_PREDEFINED: u8 = 0;
