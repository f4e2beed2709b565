/// Why a processor did not come in. The core is as it was.
#[derive(Clone, Copy, Debug, PartialEq, Eq)]
pub enum EnterRefusal {
    /// All reads so far have `copied` bytes, and this entry would read `more`: together more than the core's terms allow.
    Full { copied: u64, more: u64 },
    /// Want of memory.
    Memory,
}
