use std::error::Error;
use std::fmt;

/// Why bytes are no file name. The tests come in this order.
#[derive(Clone, Copy, Debug, PartialEq, Eq, Hash)]
pub enum FileNameFault {
    /// More than 161 bytes.
    TooLong,
    /// A byte above 127.
    NotAscii,
}

impl fmt::Display for FileNameFault {
    fn fmt<W: fmt::Write>(&self, f: &mut fmt::Formatter<W>) -> fmt::Result {
        f.write_str(match self {
            FileNameFault::TooLong => "a file name of more than 161 bytes",
            FileNameFault::NotAscii => "a file name that is not ASCII",
        })
    }
}

impl Error for FileNameFault {}
