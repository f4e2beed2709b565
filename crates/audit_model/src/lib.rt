//! What the events at a core's border say to whoever has them alone: whether they are a legal and steady history, or which event is
//! the first that can't be in one.
//!
//! Definitions and their laws, and the type of the answer. Steady is a history in which the reads of each entry agree on every
//! address that they share.
//!
//! Nothing here touches RAM, a port or a thread.
//!
//! # What is proved
//!
//! Events that some legal and steady history begins with are one themselves (`prefixes_can_be`). Each journal of a boot
//! that a core can have has a verdict (`each_has_a_verdict`), and just one (`one_verdict`). The check works out
//! verdicts on small journals, of which one has reads that differ in one byte. `audit` computes a journal's verdict.
#![tactic(auto)]

mod laws;
mod verdict;

pub use laws::{each_has_a_verdict, one_verdict, prefixes_can_be, verdict_examples};
pub use verdict::Verdict;
