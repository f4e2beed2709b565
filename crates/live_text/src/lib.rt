//! One line of a conversation with a core, judged by itself.
//!
//! The lines of a conversation are those of a trace with signals, under the rules of `notify_text`, and `history off`.
//! [`read_line`] gives what a line says, or the first rule that it breaks, by a [`Scene`]: what the rules look at of all lines
//! before it. So a line that breaks a rule changes nothing, and the work for a line doesn't grow with the lines before it.
//! [`read_question`] judges the lines that ask. `specs/` has `Rules`, the rules of a line that asks nothing and what it adds,
//! `Scene`, which scene stands for which lines, `Statement`, what a line says and how it is judged, `Asking`, and `Sound`, the
//! limits that lines keep.
//!
//! It touches no RAM, no port and no thread.
//!
//! # What is proved
//!
//! - `read_line` judges a line of a conversation behind all lines before it, of which it is lent a scene alone, so that
//!   a bad line changes nothing. It gives what the line says, which leads from the lines before it to those with it, or
//!   the first rule of a trace with signals, or of `history off`, that the line breaks, unless memory runs out.
//! - What it says stands in its place: a boot is the first of a trace, `history off` stands before it, an application,
//!   a fill and a key behind it and before all items and signals, and an item and a signal behind it.
//! - `Scene::take` and `Scene::forget` give the scene behind what a line says.
//! - Lines that keep their rules stay within the limits of a trace, wherever signals stand, but for processors that may
//!   be inside (`lines_stay_sound`).
//! - `read_question` tells a line that asks from all others by its first word, and gives what it asks, or the first
//!   rule of a question that it breaks (`IsAsked`), and never want of memory.
//! - Of twenty-four lines what they say, or their first fault, is written there, and two scenes; 25 lines are examples
//!   of questions (`questions_asked`).
#![tactic(auto)]

mod asking;
mod laws;
mod line;
mod question;
mod reading;
mod scene;

pub use asking::{MOST_EVENTS, read_question};
pub use laws::{lines_stay_sound, questions_asked, worked_examples};
pub use line::LiveLine;
pub use question::{Question, QuestionKind};
pub use reading::read_line;
pub use scene::Scene;
pub use trace_text::Statement;
