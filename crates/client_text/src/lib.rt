//! Scripts of a client, and what their texts mean.
//!
//! A script is what a client does on a core: what the core is booted with, the bytes that stand in RAM at the start, and the
//! client's calls, one after the other, each on a session that goes by a name. Its header is that of a trace (`trace_text`), and
//! behind it stand lines `open`, `invoke` and `close`. [`read_script`] reads its text. `specs/` has `Forms`, the words of a call,
//! `Rules`, the rules of a line and what it adds, and `Grammar`, which script a text spells and what the first fault of any other
//! text is.
//!
//! It touches no RAM, no port and no thread.
//!
//! # What is proved
//!
//! - `read_script` reads each text that spells a script of a client as that script, and refuses any other by its first
//!   fault, unless memory runs out.
//! - What is read is within the limits of a script. Its boot is one that a core can be given, with two threads or more;
//!   each call has a name, at most four parameters, and memory of 1 byte to the memory limit. An application is named
//!   by sixteen bytes, an invoke is cancelled, if at all, before the answer to its return of number 1 to 1000, and each
//!   name is opened by one call, which comes before all others with that name.
//! - A text spells one script, or has one first fault, and not both (`every_text_has_one_meaning`).
//! - The texts of thirty-four scripts have the first fault that is written there, and two spell their scripts.
#![tactic(auto)]

mod call_kind;
mod laws;
mod line;
mod param;
mod param_key;
mod reader;
mod reading;
mod said;
mod script;

pub use laws::{every_text_has_one_meaning, worked_examples};
pub use reading::read_script;
pub use script::{Script, ScriptCall, ScriptParam};
