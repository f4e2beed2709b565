//! Traces, and their text form.
//!
//! A trace is what one run of the core is given: what it is booted with, the bytes that stand in the normal
//! world's memory at the start, and the items of each processor in their order. Its text form is this
//! project's own, and [`read_trace`] reads it.
//!
//! It touches no RAM, no port and no thread.
//!
//! # What is proved
//!
//! - `read_trace` answers Ok exactly for the texts of the grammar, each with its trace, or want of memory. `Bad` has
//!   exactly the text's first fault, its kind and its place, which is at most the number of lines and one more. Each
//!   text spells one trace or has one first fault (`one_meaning`).
//! - What is read is within the limits of a trace (`IsSound`): its boot is one that a core can be given, its bytes lie
//!   in RAM, and each processor's entries and exits come in turn and are ended. What a line's image is follows
//!   `ta_isa`. The boot's key is that of the line `key`, which stands once at most, and without one 32 zeros.
//! - A line is judged by itself (`Scene::judge`), by what the rules look at of the lines before it: it gives what the
//!   line says (`said_in`), which stands in its place, or the first rule that it breaks, unless memory runs out.
//!   `Scene::take` gives the scene behind it.
#![tactic(auto)]

mod builder;
mod digit;
mod fault;
mod item;
mod judge;
mod laws;
pub mod limits;
mod line;
mod line_kind;
mod plain;
mod reader;
mod reading;
mod said;
mod scene;
mod statement;
mod trace;
pub mod word;

pub use builder::Builder;
pub use fault::{BadKind, LineFault, TraceFault};
pub use item::{Item, Reg};
pub use laws::{one_meaning, worked_examples};
pub use line::{has_words, is_text};
pub use line_kind::LineKind;
pub use reading::read_trace;
pub use scene::Scene;
pub use statement::Statement;
pub use trace::{Fill, Trace};
pub use word::number;
