//! From an image to bytes.
ghost use Rattle.std.specs.Prelude.{◌≡◌, [], ◌∷◌, ◌++◌, IfOk, OnOk};
ghost use Rattle.std.specs.List.{flat_map};
ghost use Rattle.ta_isa.specs.Spelling.{IsValid, instruction, spelling, word};

use crate::image::{HEADER_LEN, INSTRUCTION_LEN, Image, Instr, MAGIC};
use base::NoMemory;
use byteorder::{ByteOrder, LittleEndian};
use std::alloc::Global;

/// Appends a number as four bytes, the lowest first.
pub fn put_word(out: &mut Vec<u8>, number: u32) -> Result<(), NoMemory>
    ensures { OnOk result (out.new.items ≡ out.old.items ++ word number) }
{
    let mut bytes = [0; 4];
    LittleEndian::write_u32(&mut bytes, number);
    out.extend_from_slice(&bytes)?;
    Ok(())
}

fn put_instruction(out: &mut Vec<u8>, instr: Instr) -> Result<(), NoMemory>
    ensures { OnOk result (out.new.items ≡ out.old.items ++ instruction instr) }
{
    out.extend_from_slice(&[instr.op, instr.d, instr.a, instr.b])?;
    put_word(out, instr.imm)
}

fn put_words(out: &mut Vec<u8>, numbers: &[u32]) -> Result<(), NoMemory>
    ensures { OnOk result (out.new.items ≡ out.old.items ++ flat_map word numbers.now) }
{
    for number in numbers {
        put_word(out, *number)?;
    }
    Ok(())
}

fn put_code(out: &mut Vec<u8>, code: &[Instr]) -> Result<(), NoMemory>
    ensures { OnOk result (out.new.items ≡ out.old.items ++ flat_map instruction code.now) }
{
    for instr in code {
        put_instruction(out, *instr)?;
    }
    Ok(())
}

/// The one spelling of a valid image.
pub fn encode_image(alloc: Global, image: &Image) -> Result<Vec<u8>, NoMemory>
    requires { IsValid image.now }
    ensures { IfOk result (λ bytes. bytes.items ≡ spelling image.now) }
{
    let count = image.code.len();
    let mut out = Vec::with_capacity(alloc, HEADER_LEN + INSTRUCTION_LEN * count)?;
    out.extend_from_slice(&MAGIC)?;
    put_words(&mut out, &[image.flags, image.pages, count as u32])?;
    put_words(&mut out, &image.entries)?;
    put_code(&mut out, image.code.as_slice())?;
    Ok(out)
}
