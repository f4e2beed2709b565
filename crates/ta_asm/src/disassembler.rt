//! From an image to its canonical text.

ghost use Rattle.std.specs.Prelude.{◌≡◌, ℕ, ◌<◌, ◌++◌, ◌&&◌, ◌||◌, ◌==◌, true, false, ◌≤◌, All, length, slice_index_or, IfOk, OnOk, codes, decimal};
ghost use Rattle.std.specs.List.{list_any};
ghost use Rattle.ta_isa.specs.declared.image.Image.{Image};
ghost use Rattle.ta_isa.specs.Spelling.{IsValid};
ghost use Rattle.ta_asm.specs.Canonical.{canonical, code_lines, field_words, header_lines, immediate_words, instruction_words, is_labelled, line_of, operand_words, operation_word, spaced, targets, text_of};
ghost use Rattle.ta_asm.specs.Grammar.{StandsFor};
ghost use Rattle.ta_asm.specs.Reading.{IsMarked, label_bytes};

use base::NoMemory;
use itoa::Buffer;
use std::alloc::Global;
use ta_isa::{Image, Immediate, Instr, Operand, Row, row_of};

/// How the operation of this number is written.
#[tactic(auto, unfolding(crate::specs::Canonical::operation_word))]
fn operation_word(op: u8) -> &'static [u8]
    ensures { result.now ≡ operation_word op }
{
    match op {
        0x01 => b"const",
        0x02 => b"move",
        0x03 => b"add",
        0x04 => b"sub",
        0x05 => b"mul",
        0x06 => b"div",
        0x07 => b"rem",
        0x08 => b"and",
        0x09 => b"or",
        0x0a => b"xor",
        0x0b => b"shl",
        0x0c => b"shr",
        0x0d => b"loadb",
        0x0e => b"loadw",
        0x0f => b"storeb",
        0x10 => b"storew",
        0x11 => b"beq",
        0x12 => b"bne",
        0x13 => b"bltu",
        0x14 => b"bgeu",
        0x15 => b"jump",
        0x16 => b"call",
        0x17 => b"ret",
        0x18 => b"sys",
        _ => b"",
    }
}

/// Whether an instruction goes on at its field `imm`.
#[tactic(auto, unfolding(crate::specs::Canonical::targets))]
fn has_target(instr: Instr) -> bool
    ensures { (place : ℕ) → targets place instr ≡ (result && (instr.imm == place)) }
{
    match row_of(instr.op) {
        Some(row) => matches!(row.imm, Immediate::Target),
        None => false,
    }
}

/// Bytes and a number behind them.
fn put_number(out: &mut Vec<u8>, before: &[u8], number: u32) -> Result<(), NoMemory>
    ensures { OnOk result (out.new.items ≡ out.old.items ++ (before.now ++ decimal number)) }
{
    let mut buffer = Buffer::new();
    out.extend_from_slice(before)?;
    out.extend_from_slice(buffer.format(number).as_bytes())?;
    Ok(())
}

fn put_operand(out: &mut Vec<u8>, operand: Operand, field: u8) -> Result<(), NoMemory>
    ensures { OnOk result (out.new.items ≡ out.old.items ++ spaced (operand_words operand field)) }
{
    match operand {
        Operand::Unused => Ok(()),
        Operand::Register => put_number(out, b" r", u32::from(field)),
    }
}

fn put_immediate(out: &mut Vec<u8>, immediate: Immediate, imm: u32) -> Result<(), NoMemory>
    ensures { OnOk result (out.new.items ≡ out.old.items ++ spaced (immediate_words immediate imm)) }
{
    match immediate {
        Immediate::Unused => Ok(()),
        Immediate::Number | Immediate::SystemCall => put_number(out, b" ", imm),
        Immediate::Target => put_number(out, b" L", imm),
    }
}

fn put_fields(out: &mut Vec<u8>, row: Row, instr: Instr) -> Result<(), NoMemory>
    ensures { OnOk result (out.new.items ≡ out.old.items ++ spaced (field_words row instr)) }
{
    put_operand(out, row.d, instr.d)?;
    put_operand(out, row.a, instr.a)?;
    put_operand(out, row.b, instr.b)?;
    put_immediate(out, row.imm, instr.imm)
}

/// The line of an instruction.
#[tactic(auto, unfolding(crate::specs::Canonical::instruction_words))]
fn put_instruction(out: &mut Vec<u8>, instr: Instr) -> Result<(), NoMemory>
    ensures { OnOk result (out.new.items ≡ out.old.items ++ line_of (instruction_words instr)) }
{
    out.extend_from_slice(operation_word(instr.op))?;
    if let Some(row) = row_of(instr.op) {
        put_fields(out, row, instr)?;
    }
    out.extend_from_slice(b"\n")?;
    Ok(())
}

/// A line of these words, the last of which is a number.
fn put_line(out: &mut Vec<u8>, before: &[u8], number: u32) -> Result<(), NoMemory>
    ensures { OnOk result (out.new.items ≡ out.old.items ++ ((before.now ++ decimal number) ++ codes "\n")) }
{
    put_number(out, before, number)?;
    out.extend_from_slice(b"\n")?;
    Ok(())
}

/// What stands in front of each entry point of the header, in their order.
const ENTRY_LINES: [&[u8]; 5] = [
    b".entry create L",
    b".entry open L",
    b".entry invoke L",
    b".entry close L",
    b".entry destroy L",
];

/// The lines of the header.
fn put_header(out: &mut Vec<u8>, image: &Image) -> Result<(), NoMemory>
    ensures { OnOk result (out.new.items ≡ out.old.items ++ text_of (header_lines image.now)) }
{
    put_line(out, b".flags ", image.flags)?;
    put_line(out, b".pages ", image.pages)?;
    for (number, before) in ENTRY_LINES.iter().enumerate() {
        put_line(out, before, image.entries[number])?;
    }
    Ok(())
}

/// Marks the target of an instruction, if it has one.
fn mark_target(marks: &mut [bool], instr: Instr)
    requires { (place : ℕ) → targets place instr ≡ true → place < length marks.old }
    ensures { (k : ℕ) → k < length marks.new → slice_index_or marks.new k false ≡ (slice_index_or marks.old k false || targets k instr) }
{
    if has_target(instr) {
        marks[instr.imm as usize] = true;
    }
}

/// Marks the instructions that entry points name.
fn mark_entries(marks: &mut [bool], entries: &[u32; 5])
    requires { All (λ entry. entry < length marks.old) entries.now }
    ensures { (k : ℕ) → k < length marks.new → slice_index_or marks.new k false ≡ (slice_index_or marks.old k false || list_any (λ entry. entry == k) entries.now) }
{
    for entry in entries {
        marks[*entry as usize] = true;
    }
}

/// Marks the targets of instructions.
fn mark_targets(marks: &mut [bool], code: &[Instr])
    requires { All (λ i. (place : ℕ) → targets place i ≡ true → place < length marks.old) code.now }
    ensures { (k : ℕ) → k < length marks.new → slice_index_or marks.new k false ≡ (slice_index_or marks.old k false || list_any (targets k) code.now) }
{
    for instr in code {
        mark_target(marks, *instr);
    }
}

/// Marks the instructions that have a label, where none is marked.
#[tactic(auto, unfolding(crate::specs::Canonical::is_labelled))]
fn mark_labels(marks: &mut [bool], image: &Image)
    requires valid { IsValid image.now }
    requires whole { length marks.old ≡ length image.now.code }
    requires none { All (λ mark. mark ≡ false) marks.old }
    ensures { IsMarked image.now marks.new }
{
    mark_entries(marks, &image.entries);
    mark_targets(marks, image.code.as_slice());
}

/// Which instructions have a label.
fn labelled(alloc: Global, image: &Image) -> Result<Vec<bool>, NoMemory>
    requires { IsValid image.now }
    ensures { IfOk result (λ marks. IsMarked image.now marks.items) }
{
    let mut marks = Vec::from_elem(alloc, false, image.code.len())?;
    mark_labels(&mut marks, image);
    Ok(marks)
}

/// The line of a label, where there is one.
fn put_label(out: &mut Vec<u8>, is_labelled: bool, place: u32) -> Result<(), NoMemory>
    ensures { OnOk result (out.new.items ≡ out.old.items ++ label_bytes is_labelled place) }
{
    if is_labelled {
        put_number(out, b"L", place)?;
        out.extend_from_slice(b":\n")?;
    }
    Ok(())
}

/// The lines of instructions, and of the labels of those that are marked.
fn put_code(out: &mut Vec<u8>, code: &[Instr], marks: &[bool]) -> Result<(), NoMemory>
    requires whole { length marks.now ≡ length code.now }
    requires few { length code.now ≤ 8192 }
    ensures { OnOk result ((image : Image) → IsMarked image marks.now → image.code ≡ code.now
        → out.new.items ≡ out.old.items ++ text_of (code_lines image 0 code.now)) }
{
    for (place, instr) in code.iter().enumerate() {
        put_label(out, marks[place], place as u32)?;
        put_instruction(out, *instr)?;
    }
    Ok(())
}

/// The canonical text of a valid image, which stands for it: decimal numbers, and a label `Li:` in front of instruction
/// i wherever i is an entry point or a target.
pub fn disassemble(alloc: Global, image: &Image) -> Result<Vec<u8>, NoMemory>
    requires { IsValid image.now }
    // The text stands for the image.
    ensures stands { IfOk result (λ text. StandsFor text.items image.now) }
    // It is the canonical one.
    ensures canonical { IfOk result (λ text. text.items ≡ canonical image.now) }
{
    let mut out = Vec::new(alloc);
    let marks = labelled(alloc, image)?;
    put_header(&mut out, image)?;
    put_code(&mut out, image.code.as_slice(), &marks)?;
    Ok(out)
}
