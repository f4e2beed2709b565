//! A sink that grows.
ghost use Rattle.std.specs.Prelude.{◌≡◌, [], Some};

use ports::{Put, Sink};
use std::alloc::Global;

/// Bytes in memory. A call of it can want for memory, and no call counts a fault.
#[derive(Drop)]
pub struct GrowingSink {
    pub held: Vec<u8>,
}

impl GrowingSink {
    /// A sink that holds nothing. Takes no memory.
    pub fn new(alloc: Global) -> GrowingSink
        ensures { result.held.items ≡ [] }
    {
        GrowingSink {
            held: Vec::new(alloc),
        }
    }
}

impl Sink for GrowingSink {
    ghost use Rattle.std.specs.Prelude.{Some};

    ghost held = { λ s. Some s.held.items };

    ghost faults = { λ s. 0 };

    fn put(&mut self, bytes: &[u8]) -> Put {
        match self.held.extend_from_slice(bytes) {
            Ok(()) => Put::Done,
            Err(_) => Put::Memory,
        }
    }
}
