//! The grammar of a text of lines, whatever the lines say: what lines lead to, which value a text spells, what its
//! first fault is, and that no text has two meanings. Traces, traces with signals and scripts are its cases.
//!
//! Nothing here touches RAM, a port or a thread.
//!
//! # What is proved
//!
//! In a grammar whose lines have a fault where no line feed ends them, each text spells one value, or has one first
//! fault, and not both, and its pieces read one after the other come to that.
#![tactic(auto)]

mod examples;

pub use examples::worked_examples;
