//! What every crate above shares: the answer for want of memory, a list with a name, the trait of a value that
//! stands for a list of entries, and the words for finite maps and for zeros that contracts cite.
//!
//! It touches no RAM, no port and no thread.
//!
//! # What is proved
//!
//! `Sequence` gives back what it was made of, and its `clone` is the same list where the elements' are the same; the
//! finite maps of contracts have their laws (`number_map_laws`), and so have lists of zeros (`zeros_are_zeros`). A
//! `NumberTable` is a finite map: each call says what it gives of it, and the whole map after it; what is written
//! through `get_mut` is the value at its number then. It has no tests of its own: the programs use it.
#![tactic(auto)]

mod logged;
mod no_memory;
mod number_map;
mod number_table;
mod sequence;
mod zeros;

pub use logged::Logged;
pub use no_memory::NoMemory;
pub use number_map::{number_map_laws, worked_examples};
pub use number_table::NumberTable;
pub use sequence::Sequence;
pub use zeros::zeros_are_zeros;
