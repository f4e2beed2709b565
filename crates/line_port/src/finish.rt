/// How a port comes to its end: nothing more is heard or said over it.
#[derive(Clone, Copy, Debug, PartialEq, Eq)]
pub enum Finish {
    /// The input is over.
    Over,
    /// Reading failed.
    ReadFault,
    /// Writing failed.
    WriteFault,
    /// Want of memory.
    Memory,
}
