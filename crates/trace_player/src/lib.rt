//! The player of a trace: a core with its processors, which takes the items of a trace one by one, and the lines that
//! these print.
//!
//! It stands before the first item of a trace as its boot and its fills have it, on a core that keeps its events or
//! counts them, and at each item says which play of `play_model` it has come to. An item is played whole, and its
//! processor told the kernel's answer. For another answer `begin_item` plays the item up to its `Exit`, which has the
//! kernel's answer and the panic in which its call has ended, and then `tell` tells the processor. What is done with
//! the lines, and what is made of a refused entry, is its caller's.
//!
//! It touches the RAM of its own processors, and no port and no thread.
//!
//! # What is proved
//!
//! - A `Player` is a machine and what each processor was last told. `booted` stands before the first item of a trace on
//!   a core that keeps its events, and `counting` on one that counts them, and both answer nothing but want of memory;
//!   `with_fills` stands so on one of any terms. No call changes these, and `journal` is of a player whose core keeps
//!   its events (`terms_in`).
//! - `play_item` makes the play's step of an item, and appends what it prints to the lines that it is lent, or stops
//!   where the play does; where that refuses an entry, the player is as it was.
//! - For other answers than the core's, `begin_item` makes the step up to its exit, and gives that with the core's
//!   answer and the panic in which its call has ended, if it did (`Begins`). Its parts are `enter`, the play's entry, at
//!   whose refusal and want of memory the player is as it was (`ComesIn`), and `leave`, the play's exit (`GoesOut`). Then
//!   `write` makes the play's write, and `tell` prints what the processor is told, which the registers of its next entry
//!   may name.
#![tactic(auto)]

mod beginning;
mod exit;
mod player;

pub use beginning::COUNTED;
pub use core_machine::machines_stand;
pub use exit::Exit;
pub use player::{MAX_CPUS, Player};
