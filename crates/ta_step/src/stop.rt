//! Why a machine stops.
use ta_params::ObjectCall;

/// What an application asks the world outside for. The system calls with these numbers ask, and their answer
/// is given in the first registers: the result in r0, and what is named beside it in the next ones.
#[derive(Clone, Copy, Debug)]
pub enum Request {
    /// The time of day, of 11: seconds and milliseconds.
    Time,
    /// To be suspended for so many milliseconds, of 12.
    Suspend(u32),
    /// A call on its storage objects, of 13 to 19: the handle of a create or an open, and how many bytes a
    /// read has read.
    Object(ObjectCall),
}

/// Why a machine stopped.
#[derive(Clone, Copy, Debug)]
pub enum Stop {
    /// The entry point returned, with these two numbers.
    Ended { result: u32, context: u32 },
    /// A panic with its code: 1 an address outside of every range, 2 a place where no instruction is,
    /// 3 a division by zero, 4 a call stack that is full or empty, 5 a system call that was asked for
    /// what there is not. An application may panic with a code of its own.
    Panicked(u32),
    /// It waits for the answer to a request.
    Asks(Request),
    /// All granted steps are used.
    Interrupted,
}
