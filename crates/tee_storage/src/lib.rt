//! The storage objects of a trusted application: those that an instance has open, by the numbers of their
//! handles, and the calls on them, each of which is a state over the replies of the normal world.
//!
//! Nothing here takes memory.
//!
//! It touches no RAM, no port and no thread.
//!
//! # What is proved
//!
//! - An instance's open objects are a finite map from the numbers 0 to 7; `lowest_free` gives the least number without
//!   one, and None exactly where all eight are open; the whole map is said after every call.
//! - `ObjectState::start` gives the first step of the definition `serving`; `answer`, on a state that stands for a call
//!   after some answers, gives the step after one answer more, with the memory range and the open objects as they then
//!   are, and stands for that; `no_buffer` gives the result where no buffer comes. `start` panics exactly where the
//!   call's handle isn't open, and `answer` never: here a panic is that of the application, code 5. What lies around
//!   the range stays. `reads_on` says whether a reply brings a piece behind which another one is read; then `read_on`
//!   comes to the same step in place.
//! - By the definition, no tag is asked for of an object whose header has said that its file has none, nor of a read
//!   that has no bytes left. What a read puts into the application's memory are the brought data from its position on,
//!   and what a write asks to be written before the tag are the application's bytes, at that position. A file that a
//!   create or a write leaves ends with its tag where the normal world does what it is asked. These are read off the
//!   definition, and no law. Nor does any clause tell an older file from the last one that was written, or say what a
//!   file holds whose write the normal world has broken off.
//! - Each piece is hashed as it comes, and none is copied for that; what has gone into the tags of a call is said by
//!   `Hashes`. All hashing is over before the first FsWrite.
//! - `parts` runs written cases of each call.
#![tactic(auto)]

mod closing;
mod data_reading;
mod examples;
mod handle;
mod handles;
mod object_file;
mod opening;
mod reading;
mod replies;
mod span;
mod state;
mod step;
mod tags;
mod turn;
mod waits;
mod writing;

pub use examples::worked_examples;
pub use handle::{FileFormat, Handle};
pub use handles::{Handles, MAX_HANDLES};
pub use hmac::hmac;
pub use object_file::{MAX_ID, MAX_LENGTH};
pub use rpc_msgs::FileName;
pub use span::Span;
pub use state::ObjectState;
pub use step::{BAD_HANDLE, StorageStep};
pub use tags::Key;
