ghost use Rattle.std.specs.Prelude.{◌≡◌, ◌≤◌, length};
ghost use Rattle.ta_isa.specs.InstructionTable.{is_instruction};
ghost use Rattle.ta_isa.specs.Reading.{front_instruction};

use crate::row::row_of;
use base::Sequence;
use byteorder::{ByteOrder, LittleEndian};
use std::alloc::AllocError;

/// The first four bytes of an image, `OTTA`.
pub const MAGIC: [u8; 4] = *b"OTTA";

/// The bytes in front of the instructions: magic, flags, pages, count and five entry points.
pub(crate) const HEADER_LEN: usize = 36;

/// The bytes of an instruction.
pub(crate) const INSTRUCTION_LEN: usize = 8;

/// The pages that an instance may have at most.
pub const MAX_PAGES: u32 = 64;

/// The instructions that an image may have at most.
pub const MAX_INSTRUCTIONS: u32 = 8192;

/// One instruction of an application: an operation, three fields that name registers, and a number.
/// A field that the operation does not use is 0.
#[derive(Clone, Copy, Debug, PartialEq, Eq)]
pub struct Instr {
    /// The operation, 1 to 24.
    pub op: u8,
    pub d: u8,
    pub a: u8,
    pub b: u8,
    /// A constant, an address, a target or the number of a system call.
    pub imm: u32,
}

impl Instr {
    /// The instruction in the eight bytes in front.
    #[tactic(auto, unfolding(crate::specs::Reading::front_instruction, crate::specs::Reading::word_at))]
    pub(crate) fn read(bytes: &[u8]) -> Instr
        requires { 8 ≤ length bytes.now }
        ensures { result ≡ front_instruction bytes.now }
    {
        Instr {
            op: bytes[0],
            d: bytes[1],
            a: bytes[2],
            b: bytes[3],
            imm: LittleEndian::read_u32(&bytes[4..]),
        }
    }

    /// Whether an image of so many instructions may have this one: its operation has a row in the table,
    /// and each field holds what the row says.
    #[tactic(auto, unfolding(crate::specs::InstructionTable::is_instruction))]
    pub(crate) fn is_valid(self, count: u32) -> bool
        ensures { result ≡ is_instruction count self }
    {
        match row_of(self.op) {
            None => false,
            Some(row) => row.holds(self, count),
        }
    }
}

/// The code of a trusted application and what an instance of it needs.
#[derive(Debug, Drop)]
pub struct Image {
    /// The instance flags: bit 2 single instance, bit 3 multi session, bit 4 keep alive.
    pub flags: u32,
    /// The pages of 4096 bytes that an instance has, 1 to 64.
    pub pages: u32,
    /// Where create, open, invoke, close and destroy begin, each the number of an instruction.
    pub entries: [u32; 5],
    /// The instructions, 1 to 8192.
    pub code: Sequence<Instr>,
}

impl Clone for Image {
    ghost is_clone = { λ image copy. copy ≡ image };

    fn clone(&self) -> Result<Image, AllocError> {
        Ok(Image {
            flags: self.flags,
            pages: self.pages,
            entries: self.entries,
            code: self.code.clone()?,
        })
    }
}
