//! What the play of a trace is where its processors take turns in any order, what one processor prints of it, and what
//! part of a history is a processor's.
//!
//! The crate is one of definitions. `specs/` reads in the order of its modules:
//! - `Act`: what a trace has one processor do
//! - `Seat`: what a processor has come to
//! - `Ordered`, `Blocks`: the play in an order of processors, and what is printed of it
//! - `Part`, `Merge`: a processor's part of a history, and a history taken apart by its processors
//! - `Laws`: what holds of parts and plays
//! - `Places`: which places are printed
//!
//! Nothing here touches RAM, a port or a thread.
//!
//! # What is proved
//!
//! - A processor has at most one part of a history, over the same RAM and items (`parts_are_unique`). It stays, with a
//!   refused entry, where events of others follow (`parts_stay`), and grows by the entry or the exit that it leaves,
//!   where that comes behind all events (`parts_grow`).
//! - Where each processor of a boot has its part of a history that is legal from it, and whose entries stay within the
//!   read limit, the play in the order of the history's events is defined, and has this history and the kernel after
//!   it. Each processor has then come to its part: its RAM, its lines with their places, and the acts that it leaves
//!   (`parts_merge`).
//! - The same holds with refused entries (`refusals_merge`). Each comes at a place behind its processor's last event,
//!   where the entry that the part leaves would read too many bytes; several at one place come by their processors'
//!   numbers. A processor has then come to its part and to the numbers of the refusal there.
//! - The other way round, the history of each play in an order is legal, its entries stay within the read limit, and
//!   each processor has come to its part of it, with a place for a refused entry (`plays_have_parts`).
//! - What is printed of a play are the blocks of what its processors have come to, one behind the other; that all is
//!   done, and that an entry was refused, show there (`blocks_are_of_seats`). So where all parts of a legal history are
//!   done, or stop at a refused entry, the blocks of the trace in that history's order are theirs (`blocks_merge`).
//! - A part of a legal history prints the places of its processor's events there, in their order, but that of a last
//!   entry which has no exit yet (`parts_print_their_places`).
//! - So a play that has ended, of a trace whose processors come in and go out by turns, has printed the places 0 to
//!   2m - 1 of its m SMCs, each once, also where entries were refused (`places_are_each_once`).
//! - Of such a trace an order in which no entry is refused shares its blocks, where these are fewer than 2^64 bytes,
//!   with no other order (`blocks_name_the_order`).
//!
//! Plays of two processors in several orders print what is written there, byte for byte.
#![tactic(auto)]

mod laws;

pub use laws::{
    blocks_are_of_seats, blocks_merge, blocks_name_the_order, parts_are_unique, parts_grow,
    parts_merge, parts_print_their_places, parts_stay, places_are_each_once, plays_have_parts,
    refusals_merge, worked_examples,
};
