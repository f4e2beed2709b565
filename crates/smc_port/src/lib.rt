//! The port through which a client calls a core: a secure monitor call (SMC) with eight registers, answered in eight.
//!
//! What a port means to its caller is three things: the RAM that both sides see, the list of the SMCs made, each with
//! its registers, what was read of RAM, its answer and what was written there, and whether there is room for another.
//! Nothing is said of what an answer holds: a port may answer anything at any time, and write anything to RAM.
//!
//! `World` is a port whose caller can look at its RAM and change it. `ListedPort` is one that answers by a list, for
//! tests of what calls a port.
//!
//! It touches the lane of a port, and no thread.
//!
//! # What is proved
//!
//! - Of every port, by its trait: an SMC that is answered stands behind those made before, what was read of RAM stood
//!   there, and RAM is as before but for the writes, in their order, which lie in it. An SMC is made only where there
//!   is room. Spent comes only where there is none, so that want of memory alone leaves open which it is. Both refusals
//!   leave RAM, the list of SMCs and the room.
//! - Of a `World` besides: `peek` gives the bytes of RAM, and `poke` changes its own alone and leaves the list.
//! - `ListedPort` does just what the next turn of its list says. Nothing is said of what a port may answer.
#![tactic(auto)]

mod examples;
mod listed_port;
mod port;
mod ram_write;
mod turn;
mod world;

pub use examples::worked_examples;
pub use listed_port::ListedPort;
pub use port::{PortRefusal, SmcPort};
pub use ram_write::RamWrite;
pub use turn::Turn;
pub use world::World;
