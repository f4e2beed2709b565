//! The labels of a text.

ghost use Rattle.std.specs.Prelude.{◌≡◌, ◌+◌, ◌<◌, ◌^◌, ℕ, List, length, if◌then◌else◌, Some, None, IfOk, IfErr, OnOk, nat_lt};
ghost use Rattle.std.specs.Option.{option_or};
ghost use Rattle.std.specs.BTreeMap.{get_by};
ghost use Rattle.std.specs.Cmp.Lexicographic.{slice_cmp};
ghost use Rattle.std.specs.Ordering.{nat_cmp};
ghost use Rattle.std.specs.Str.{bytes_eq};
ghost use Rattle.ta_asm.specs.declared.statement.Statement.{Statement};
ghost use Rattle.ta_asm.specs.Grammar.{definition, instructions, is_instruction_line};
ghost use Rattle.ta_asm.specs.Lines.{statements_of};
ghost use Rattle.ta_asm.specs.Reading.{Defines, HasLabels, label_in};

use crate::fault::AsmFault;
use crate::name::Name;
use crate::statement::Statement;
use crate::statements::Statements;
use std::alloc::Global;
use std::collections::BTreeMap;

/// The first line of a label, counted from 1, and how many instructions stand before it.
#[derive(Clone, Copy, Drop)]
pub struct Definition {
    pub line: u32,
    pub place: u32,
}

/// Notes a line of a label, where it is the first one.
fn note<'a>(
    map: &mut BTreeMap<&'a [u8], Definition>,
    name: &'a [u8],
    definition: Definition,
) -> Result<(), AsmFault>
    ensures noted { OnOk result ((q : List ℕ) → get_by (λ key. slice_cmp nat_cmp q key.now) map.new
        ≡ option_or (get_by (λ key. slice_cmp nat_cmp q key.now) map.old) (if bytes_eq name.now q then Some definition else None)) }
    ensures memory { IfErr result (λ fault. fault ≡ AsmFault.Memory) }
{
    // A name that stands twice is rare, and a second search at each name is not.
    if let Some(first) = map.insert(name, definition)? {
        map.insert(name, first)?;
    }
    Ok(())
}

/// Notes a line, and answers how many instructions stand before the next one.
fn note_line<'a>(
    map: &mut BTreeMap<&'a [u8], Definition>,
    here: Definition,
    statement: Statement<'a>,
) -> Result<u32, AsmFault>
    requires { here.place + 1 < 2 ^ 32 }
    ensures noted { OnOk result ((q : List ℕ) → get_by (λ key. slice_cmp nat_cmp q key.now) map.new
        ≡ option_or (get_by (λ key. slice_cmp nat_cmp q key.now) map.old) (label_in q here statement.entry)) }
    ensures place { IfOk result (λ place. place ≡ here.place + instructions statement.entry) }
    ensures memory { IfErr result (λ fault. fault ≡ AsmFault.Memory) }
{
    match statement {
        Statement::Label(name) => {
            note(map, name.bytes(), here)?;
            Ok(here.place)
        }
        Statement::Code(_, _) => Ok(here.place + 1),
        _ => Ok(here.place),
    }
}

/// The last line of an instruction, after one more line.
fn last_after(last: u32, line: u32, statement: &Statement) -> u32
    ensures { result ≡ (if is_instruction_line statement.now then line else last) }
{
    match statement {
        Statement::Code(_, _) => line,
        _ => last,
    }
}

/// The labels of a text, and its last instruction.
#[derive(Drop)]
pub struct Labels<'a> {
    map: BTreeMap<&'a [u8], Definition>,
    /// The last line that is one of an instruction, counted from 1; 0 where there is none.
    last: u32,
}

impl<'a> Labels<'a> {
    /// The labels of a text.
    pub fn of(alloc: Global, text: &'a [u8]) -> Result<Labels<'a>, AsmFault>
        requires { length text.now + 1 < 2 ^ 32 }
        ensures known { IfOk result (λ labels. HasLabels labels (statements_of text.now)) }
        ensures memory { IfErr result (λ fault. fault ≡ AsmFault.Memory) }
    {
        let mut statements = Statements::of(text);
        let mut map = BTreeMap::new(alloc);
        let mut last = 0u32;
        let mut lines = 0u32;
        let mut place = 0u32;
        while let Some(statement) = statements.next_statement() {
            let here = Definition {
                line: lines + 1,
                place,
            };
            last = last_after(last, here.line, &statement);
            place = note_line(&mut map, here, statement)?;
            lines += 1;
        }
        Ok(Labels { map, last })
    }

    /// The first line of a label.
    pub fn find(&self, name: &Name<'a>) -> Option<Definition>
        ensures { (all : List Statement) → Defines self.now.map all → result ≡ definition all name.now }
    {
        self.map.get(&name.bytes()).copied()
    }

    /// Whether an instruction stands behind a line.
    pub fn is_followed(&self, line: u32) -> bool
        ensures { result ≡ nat_lt line self.now.last }
    {
        line < self.last
    }
}
