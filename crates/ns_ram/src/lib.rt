//! The RAM of the normal world, as one processor sees it, and the list of what was read of it.
//!
//! Nothing there is trusted: any byte may stand at any address, and other processors write to it at any
//! time. So this is the one place where RAM is touched. An address is tested by `in_ram`, once; a call takes
//! the bytes that it wants once, and lists them in its `Reads`; and what it does afterwards depends on that
//! list, and not on RAM. `specs/Reader.antt` has what a contract says of that: a reader names what a call
//! wants and what it makes of it, and is run over a lane as well as over a list of reads.
//!
//! What the bytes mean is no concern of this crate.
//!
//! It touches lanes of RAM, and no port and no thread.
//!
//! # What is proved
//!
//! - `in_ram` takes no wrapped sum; a read gives a lane's bytes at their address, and writes change theirs alone, one
//!   and a list of them (`writes_change_their_bytes_alone`); a new lane has zeros everywhere
//!   (`zeros_are_read_everywhere`).
//! - Over reads that each hold a lane's bytes a reader gives what it gives over the lane, and takes those that it asks
//!   for (`readers_depend_on_their_reads`); it adds them behind those before (`readers_add_their_reads`), and of two
//!   readers in a row the second goes on where the first ended (`readers_run_in_turn`).
//! - `walk_pages` gives exactly the first pages of a chain, or the least bad one, or want of memory; `take_pages`
//!   besides lists its reads, and leaves the list as it was at want of memory.
#![tactic(auto)]

mod lane;
mod laws;
mod pages;
mod ram;
mod read;
mod reads;

pub use base::NoMemory;
pub use lane::Lane;
pub use laws::{
    readers_add_their_reads, readers_depend_on_their_reads, readers_run_in_turn, worked_examples,
    writes_change_their_bytes_alone, zeros_are_read_everywhere,
};
pub use pages::{
    LIST_ENTRIES, PAGE_BYTES, WalkFault, is_page, page_examples, take_pages, walk_pages,
    walks_find_pages,
};
pub use ram::{RAM_BYTES, RAM_START, in_ram};
pub use read::Read;
pub use reads::Reads;
