//! What the play of a made trace is: it goes to its end, and one line sums it up.
//!
//! The crate is one of definitions. `specs/` has the summary, which `trace_runner` prints, and the laws of made traces:
//! each is within the limits of a trace, and its play, on a core without built-in applications, refuses no entry.
//!
//! Nothing here touches RAM, a port or a thread.
//!
//! # What is proved
//!
//! Each made trace is within the limits of a trace, and a core can be booted for it (`made_traces_are_sound`). The play
//! of one of at most as many calls as the item limit refuses no entry, so it takes each item, and what it has printed
//! is the text of the trace (`made_plays_end`). That is proved by a bound of 4,096 bytes that each entry reads: a call
//! with an argument reads its argument alone, which has at most 96, and a resume reads at most the reply to a request,
//! which fits a page.
#![tactic(auto)]

mod laws;

pub use laws::{made_plays_end, made_traces_are_sound, worked_examples};
