use page_set::KeptPages;
use std::alloc::Global;

/// Room for what stood in RAM where an exit that is watched can write.
#[derive(Drop)]
pub struct Watch {
    /// The exit of the line that is taken is watched. It stays so, as a line whose exit isn't watched has a `Watch` of its own.
    pub(crate) is_on: bool,
    pub(crate) kept: KeptPages,
}

impl Watch {
    /// No exit was watched yet. Takes no memory.
    pub fn new(alloc: Global) -> Watch {
        Watch {
            is_on: false,
            kept: KeptPages::none(alloc),
        }
    }
}
