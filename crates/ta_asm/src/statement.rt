//! What a line says.

ghost use Rattle.std.specs.Prelude.{◌≡◌, ◌-◌, length, take, if◌then◌else◌, Some, None};
ghost use Rattle.std.specs.Option.{option_map};
ghost use Rattle.ta_asm.specs.Lines.{code_at, code_left, entry_left, immediate_at, is_label, name_at, number_left, operand_at, said_by, said_in, statement_of};

use crate::name::Name;
use crate::names::{EntryPoint, entry, operation};
use crate::word::{is, is_name, number, register};
use ta_isa::{Immediate, Instr, LAST_SYSTEM_CALL, Operand, Row, row_of};
use text_lines::{Words, is_skipped};

/// What a line says.
#[derive(Drop)]
pub enum Statement<'a> {
    /// Nothing: the line is empty or a comment.
    Nothing,
    /// `.flags N`
    Flags(u32),
    /// `.pages N`
    Pages(u32),
    /// `.entry NAME LABEL`
    Entry(EntryPoint, Name<'a>),
    /// `NAME:`
    Label(Name<'a>),
    /// An instruction, and the label of its target; the field `imm` is then 0.
    Code(Instr, Option<Name<'a>>),
    /// A line of no such form.
    Unread,
}

/// A word that is a name.
fn name_at<'a>(word: &'a [u8]) -> Option<Name<'a>>
    ensures { result ≡ name_at word.now }
{
    if is_name(word) {
        Some(Name::of(word))
    } else {
        None
    }
}

/// A field of an instruction, by what its row says.
#[tactic(auto, unfolding(crate::specs::Lines::operand_at))]
#[inline(always)]
fn operand_at(operand: Operand, words: &mut Words) -> Option<u8>
    ensures { operand_at operand words.old ≡ option_map (λ field. (field, words.new)) result }
{
    match operand {
        Operand::Unused => Some(0),
        Operand::Register => register(words.next_word()?),
    }
}

/// The number that is the last word.
#[tactic(auto, unfolding(crate::specs::Lines::number_left))]
#[inline(always)]
fn number_left(words: &mut Words) -> Option<u32>
    ensures { result ≡ number_left words.old }
{
    number(words.last_word()?)
}

/// The field `imm` of an instruction and the label of its target, by what its row says.
#[tactic(auto, unfolding(crate::specs::Lines::immediate_at, crate::specs::Lines::number_left))]
fn immediate_at<'a>(immediate: Immediate, words: &mut Words<'a>) -> Option<(u32, Option<Name<'a>>)>
    ensures { result ≡ immediate_at immediate words.old }
{
    match immediate {
        Immediate::Unused => {
            if words.is_ended() {
                Some((0, None))
            } else {
                None
            }
        }
        Immediate::Number => Some((number_left(words)?, None)),
        Immediate::Target => Some((0, Some(name_at(words.last_word()?)?))),
        Immediate::SystemCall => {
            let call = number_left(words)?;
            if call <= LAST_SYSTEM_CALL {
                Some((call, None))
            } else {
                None
            }
        }
    }
}

/// The instruction of an operation, by the words behind its name.
#[tactic(auto, unfolding(crate::specs::Lines::code_at))]
fn code_at<'a>(op: u8, row: Row, words: &mut Words<'a>) -> Option<Statement<'a>>
    ensures { result ≡ code_at op row words.old }
{
    let d = operand_at(row.d, words)?;
    let a = operand_at(row.a, words)?;
    let b = operand_at(row.b, words)?;
    let (imm, target) = immediate_at(row.imm, words)?;
    Some(Statement::Code(Instr { op, d, a, b, imm }, target))
}

/// An entry point, by the words behind the first one.
#[tactic(auto, unfolding(crate::specs::Lines::entry_left))]
fn entry_left<'a>(words: &mut Words<'a>) -> Option<Statement<'a>>
    ensures { result ≡ entry_left words.old }
{
    let point = entry(words.next_word()?)?;
    let name = name_at(words.last_word()?)?;
    Some(Statement::Entry(point, name))
}

/// An instruction, by the words behind the first one.
#[tactic(auto, unfolding(crate::specs::Lines::code_left))]
fn code_left<'a>(first: &[u8], words: &mut Words<'a>) -> Option<Statement<'a>>
    ensures { result ≡ code_left first.now words.old }
{
    let op = operation(first)?;
    let row = row_of(op)?;
    code_at(op, row, words)
}

/// What a line with this first word says, by the words behind it.
#[tactic(auto, unfolding(crate::specs::Lines::said_by))]
fn said_by<'a>(first: &[u8], words: &mut Words<'a>) -> Option<Statement<'a>>
    ensures { result ≡ said_by first.now words.old }
{
    if is(first, b".flags") {
        return Some(Statement::Flags(number_left(words)?));
    }
    if is(first, b".pages") {
        return Some(Statement::Pages(number_left(words)?));
    }
    if is(first, b".entry") {
        return entry_left(words);
    }
    code_left(first, words)
}

/// What a line of these words says.
#[tactic(auto, unfolding(crate::specs::Lines::said_in))]
fn said_in<'a>(mut words: Words<'a>) -> Option<Statement<'a>>
    ensures { result ≡ said_in words.entry }
{
    let first = words.next_word()?;
    said_by(first, &mut words)
}

/// The label that a line names, where it is a name and `:`.
#[tactic(auto, unfolding(crate::specs::Lines::is_label))]
fn label_of<'a>(line: &'a [u8]) -> Option<Name<'a>>
    ensures { result ≡ (if is_label line.now then Some (take (length line.now - 1) line.now) else None) }
{
    match line {
        [.., b':'] => name_at(&line[..line.len() - 1]),
        _ => None,
    }
}

/// What a line says, which is given without its line feed.
#[tactic(auto, unfolding(crate::specs::Lines::statement_of))]
pub fn statement_of<'a>(line: &'a [u8]) -> Statement<'a>
    ensures { result ≡ statement_of line.now }
{
    if is_skipped(line) {
        return Statement::Nothing;
    }
    if let Some(name) = label_of(line) {
        return Statement::Label(name);
    }
    match said_in(Words::of(line)) {
        Some(statement) => statement,
        None => Statement::Unread,
    }
}
