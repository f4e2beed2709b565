//! Sets of pages of RAM: what can be written, so that what is written is found without a look at all of RAM.
//!
//! A [`PageSet`] has pages of 4096 bytes by their numbers, and [`KeptPages`] what stood in those of a set.
//! `specs/Pages.antt` has what it means that bytes lie in the pages of a set, and that RAM stays elsewhere.
//!
//! It reads the bytes of RAM that it is lent, and touches no port and no thread.
//!
//! # What is proved
//!
//! `mark` adds the pages that bytes of RAM touch, and takes none away; no clause says that it adds no others, which would
//! be safe, and slow. `keep` keeps what stands in just the pages of a set. Writes that lie in the pages of a set leave all
//! others as they were (`writes_stay_in_their_pages`).
#![tactic(auto)]

mod kept;
mod laws;
mod set;

pub use kept::KeptPages;
pub use laws::writes_stay_in_their_pages;
pub use set::{PAGES, PageSet};
