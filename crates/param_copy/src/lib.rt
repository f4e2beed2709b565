//! The parameters of a call, copied out of the RAM of the normal world once, and what a call writes back.
//!
//! A parameter that is memory stands in RAM in pieces, which the normal world names by an address, by a
//! chain of page lists, or by a registered buffer. What is copied of them at a call's entry is all that the
//! call ever sees, so this is the one place where its buffers are read; what was read is listed, also where
//! a parameter is refused. Where the bytes came from is kept beside the copy, and that is where results go.
//!
//! The definitions follow `optee_msg.h`, and the parameters are those of the GlobalPlatform TEE Internal
//! Core API.
//!
//! It touches the lane that it is lent, and no port and no thread.
//!
//! # What is proved
//!
//! - `copy_in` gives the definition's copies, places and cookies, or its first fault, or want of memory, with the list
//!   of its reads, each of which has the lane's bytes, and which alone decide; `take_params` lists them also where it
//!   finds a fault, and leaves the list as it was at want of memory.
//! - `copy_out` makes the definition's writes in their order, and nothing else.
//! - Pieces lie in RAM, and their lengths sum to the size (`pieces_have_the_size`); what is written back lies in RAM
//!   (`writes_back_lie_in_ram`).
#![tactic(auto)]

mod copied;
mod fault;
mod laws;
mod memory;
mod take;
mod taken;
mod write_back;

pub use copied::{Copied, MAX_MEMREF_BYTES, Place, Places, copy_in};
pub use fault::CopyFault;
pub use laws::{pieces_have_the_size, worked_examples, writes_back_lie_in_ram};
pub use ns_ram::{Read, Reads};
pub use take::take_params;
pub use taken::TakenParams;
pub use write_back::copy_out;
