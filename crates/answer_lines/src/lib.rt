//! The lines of answers as bytes, and the registers that an item gives.
//!
//! Each function appends to a text that it is lent. At `Err` there was no memory, and a part of what was to come may
//! stand at the text's end, behind all that the text had. The definitions of the lines are those of `play_model`.
//!
//! It touches no RAM, no port and no thread.
//!
//! # What is proved
//!
//! Each function appends the definition's text, `ret_line` or `mem_line` of `play_model` or a part of one, and what the
//! text had stays at its front, at want of memory too; `registers` is `number_in` of each. The table of pairs of digits
//! is compared byte by byte with the definition.
#![tactic(auto)]

mod digits;
mod given;
mod lines;

pub use given::registers;
pub use lines::{push_hex, push_mem, push_numbered, push_registers, push_ret};
