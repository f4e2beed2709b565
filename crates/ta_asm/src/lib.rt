//! The assembler: text to images of trusted applications, and back. Its language is this project's own.
//!
//! It touches no RAM, no port and no thread.
//!
//! # What is proved
//!
//! `assemble` answers Ok exactly for the texts of the grammar, each with its image, which is valid, or want of memory;
//! any other text is refused by exactly its first fault, at its least faulty line; each text stands for one image or
//! has one first fault (`one_meaning`). `disassemble` answers for a valid image its canonical text, which stands for
//! the image, or want of memory; that text stands for no other image and has no fault, so assembling it gives the image
//! back (`round_trip`). The program reaches `assemble` alone. Tested outside the gate: over an image with 400 labels,
//! and over all its texts, a program ends in want of memory whichever one of its allocations is refused.
#![tactic(auto)]

mod assembler;
mod disassembler;
mod fault;
mod labels;
mod laws;
mod name;
mod names;
mod program;
mod statement;
mod statements;
mod word;

pub use assembler::assemble;
pub use disassembler::disassemble;
pub use fault::AsmFault;
pub use laws::{one_meaning, round_trip, worked_examples};
