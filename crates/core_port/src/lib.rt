//! A port over a core: a client's SMCs, each one entry and one exit of the core's processor 0.
//!
//! Each SMC is granted 10,000 steps. The port has room for 32,768 of them, as long as the core lets them in: an entry
//! that would bring what all entries have read above the read limit has no room.
//!
//! What contracts see of a port is the boot, all entries and exits of its core, and RAM. The SMCs made are those of that
//! history, which is legal from the boot: what was read stands in their entries, what was written is what the kernel's exits
//! write.
//!
//! It touches the RAM of its own port, and no thread.
//!
//! # What is proved
//!
//! An SMC that a port answers is that entry and exit: in each play at which the port stands, the play comes to where
//! the port then stands, and prints that answer (`Answers`). It has room exactly where that is said above; so Spent
//! comes only there, and at want of memory which it is stays open. Its core counts its events and keeps none; `recall`
//! says of them that they are those of the SMCs made, one behind the other, and legal from the boot (`IsKernels`),
//! which is that of the port's type. `peek` and `poke` are those of RAM. Where a port has no room, each play at which
//! it stands refuses the SMC, or 32,768 were made (`no_room_is_the_plays`).
#![tactic(auto)]

mod core_port;
mod laws;
mod of_boot;
mod serving;

pub use core_port::CorePort;
pub use laws::no_room_is_the_plays;
pub use of_boot::OfBoot;
