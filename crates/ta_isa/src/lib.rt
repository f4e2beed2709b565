//! Images of trusted applications, their bytes, and what a core is booted with.
//!
//! The image format, its instructions and its limits are this project's own.
//!
//! It touches no RAM, no port and no thread.
//!
//! # What is proved
//!
//! `decode_image` answers Ok exactly for spellings of valid images, each with its image, and each fault exactly where
//! the definition has it, in its order, or want of memory. `encode_image` gives the spelling; an image has one
//! spelling, and a spelling one image (`one_image`). The registers of an instruction that an image may have are
//! registers that there are (`instruction_fields`). A copy of an image, an application or a boot equals it.
#![tactic(auto)]

mod boot;
mod decode;
mod encode;
mod flags;
mod image;
mod image_fault;
mod laws;
mod row;

pub use base::NoMemory;
pub use boot::{App, Boot};
pub use decode::decode_image;
pub use encode::{encode_image, put_word};
pub use flags::{ALLOWED_FLAGS, InstanceFlags};
pub use image::{Image, Instr, MAGIC, MAX_INSTRUCTIONS, MAX_PAGES};
pub use image_fault::ImageFault;
pub use laws::{instruction_fields, one_image, worked_examples};
pub use row::{Immediate, LAST_SYSTEM_CALL, Operand, REGISTERS, Row, row_of};
