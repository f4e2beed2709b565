ghost use Rattle.std.specs.Prelude.{IfOk};
ghost use Rattle.solo.specs.Rooms.{HoldsBytes, IsOutputRoom, IsRoom};

use base::NoMemory;
use rpc_msgs::MAX_PAYLOAD;
use std::alloc::Global;

/// Memory for the bytes of four parameters.
#[derive(Drop)]
pub struct OutputRoom {
    pub p0: Vec<u8>,
    pub p1: Vec<u8>,
    pub p2: Vec<u8>,
    pub p3: Vec<u8>,
}

/// Memory for what a call tells as it goes out, taken before anything is changed.
#[derive(Drop)]
pub struct Room {
    /// For the bytes of a request.
    pub payload: Vec<u8>,
    /// For the outputs of a call that has ended.
    pub outputs: OutputRoom,
}

impl OutputRoom {
    /// Takes it, for parameters of at most so many bytes each.
    pub fn new(alloc: Global, longest: usize) -> Result<OutputRoom, NoMemory>
        ensures empty { IfOk result IsOutputRoom }
        ensures holds { IfOk result (HoldsBytes longest) }
    {
        Ok(OutputRoom {
            p0: Vec::with_capacity(alloc, longest)?,
            p1: Vec::with_capacity(alloc, longest)?,
            p2: Vec::with_capacity(alloc, longest)?,
            p3: Vec::with_capacity(alloc, longest)?,
        })
    }
}

impl Room {
    /// Takes it, for a call whose parameters have at most so many bytes each.
    pub fn new(alloc: Global, longest: usize) -> Result<Room, NoMemory>
        ensures empty { IfOk result IsRoom }
        ensures holds { IfOk result (λ room. HoldsBytes longest room.outputs) }
    {
        Ok(Room {
            payload: Vec::with_capacity(alloc, MAX_PAYLOAD)?,
            outputs: OutputRoom::new(alloc, longest)?,
        })
    }
}
