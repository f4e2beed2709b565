//! The numbers of the commands, which are those of OP-TEE's `optee_rpc_cmd.h`, and of their functions; those of files are this
//! project's own.

/// The command for a function of the file system, whose number is p of the first parameter.
pub const OPTEE_RPC_CMD_FS: u32 = 2;

/// The command for the time of day.
pub const OPTEE_RPC_CMD_GET_TIME: u32 = 3;

/// The command to sleep or to wake, by p of the first parameter.
pub const OPTEE_RPC_CMD_NOTIFICATION: u32 = 4;

/// The command to be suspended for so many milliseconds.
pub const OPTEE_RPC_CMD_SUSPEND: u32 = 5;

/// To sleep until a wake with a key.
pub const OPTEE_RPC_NOTIFICATION_WAIT: u64 = 0;

/// To wake who sleeps with a key.
pub const OPTEE_RPC_NOTIFICATION_SEND: u64 = 1;

/// To open the file of a name.
pub const OPTEE_RPC_FS_OPEN: u64 = 0;

/// To create the file of a name.
pub const OPTEE_RPC_FS_CREATE: u64 = 1;

/// To close an open file.
pub const OPTEE_RPC_FS_CLOSE: u64 = 2;

/// To read of an open file.
pub const OPTEE_RPC_FS_READ: u64 = 3;

/// To write to an open file.
pub const OPTEE_RPC_FS_WRITE: u64 = 4;

/// To remove the file of a name.
pub const OPTEE_RPC_FS_REMOVE: u64 = 6;
