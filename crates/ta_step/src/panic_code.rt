//! The codes that the machine itself panics with.

/// An address, or a word from it on, that lies in no range.
pub const BAD_ADDRESS: u32 = 1;

/// A place where no instruction is.
pub const PAST_THE_CODE: u32 = 2;

/// A division by zero.
pub const DIVISION_BY_ZERO: u32 = 3;

/// A call with a full stack, or a return with an empty one.
pub const BAD_STACK: u32 = 4;

/// A system call that was asked for what there is not.
pub const BAD_CALL: u32 = 5;
