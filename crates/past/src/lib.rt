//! A list that only proofs read: it takes no memory, and its methods do nothing at run time.
//!
//! So code that lets go of what it was given can have the same meaning as code that keeps it.
//!
//! It touches no RAM, no port and no thread.
//!
//! # What is proved
//!
//! `new` makes the empty one, `with` the same with an entry behind it, and there is nothing else by which it could be
//! another list; it has no bytes. Both are proved by hand, since no code can set a field that only proofs read. What is
//! trusted is the toolchain's word that only proofs read it: nothing at run time shows the list.
#![tactic(auto)]

mod past;

pub use past::Past;
