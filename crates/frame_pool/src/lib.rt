//! The page frames of the instances' memory. All memory is taken at the start; from then on a page is moved
//! between the pool and its one owner, and comes out of the pool as zeros, whatever was in it.
//!
//! The frames of an owner lie in one list. Each frame brings an empty list for 64 frames along, so that taking pages
//! takes no memory, and an owner moves as a list and a pointer.
//!
//! The pool and the size of a page are this project's own.
//!
//! It touches no RAM, no port and no thread.
//!
//! # What is proved
//!
//! `take` gives pages of zeros, and answers `Short` exactly where fewer are free. A page has one owner, by a move, and
//! the number of free pages is said after every call. Pages are a memory of one list of bytes, whose words and parts
//! are those of that list, in one page and across several; and so many pages of zeros are so many pages
//! (`pages_of_zeros`).
#![tactic(auto)]

mod examples;
mod frame;
mod laws;
mod pages;
mod pool;
mod rooms;
mod short;

pub use base::NoMemory;
pub use examples::worked_examples;
pub use frame::PAGE_BYTES;
pub use laws::pages_of_zeros;
pub use pages::{MAX_PAGES, Pages};
pub use pool::Pool;
pub use short::Short;
