//! Traces with signals, and what their texts mean.
//!
//! Asynchronous notification begins with a signal of the hardware, which is no item of a processor: it stands between
//! the items of a trace, as a line `signal VALUE` in its text form. [`read_notify_trace`] reads that form, and
//! [`judge_line`] judges one line. A line other than a signal's is one of a trace, under the rules of `trace_text`,
//! where `signal` begins no line.
//!
//! `specs/` has `Steps`, in which order items and signals come, `Rules`, the rules of a line and what it adds, and
//! `Grammar`, which trace a text spells and what the first fault of any other text is.
//!
//! It touches no RAM, no port and no thread.
//!
//! # What is proved
//!
//! - `read_notify_trace` reads each text that spells a trace with signals as that trace, and refuses any other by its
//!   first fault, unless memory runs out. What is read is within the limits of a trace, its signals have values from 1
//!   to 63, and each stands behind as many items as the signal before it, or behind more.
//! - A text spells one trace with signals, or has one first fault, and not both (`every_text_has_one_meaning`).
//! - `judge_line` judges a line by the scene of those before it, by the rules of a trace with signals.
//! - A text in which no line begins with `signal` spells what it spells as a trace, with no signals, and has the same
//!   first fault (`texts_without_signals_are_traces`).
//! - The texts of twelve small traces with signals have the first fault that is written there, two spell their traces,
//!   and a line `signal 5` of a trace without signals is `item`.
#![tactic(auto)]

mod judging;
mod laws;
mod notify_trace;
mod reading;

pub use judging::judge_line;
pub use laws::{every_text_has_one_meaning, texts_without_signals_are_traces, worked_examples};
pub use notify_trace::{NotifyTrace, Signal};
pub use reading::read_notify_trace;
pub use trace_text::Trace;
