//! What the lines of a text add up to.

ghost use Rattle.std.specs.Prelude.{◌≡◌, List, IfErr, nat_lt, ◌≤◌};
ghost use Rattle.ta_isa.specs.Spelling.{are_allowed};
ghost use Rattle.ta_asm.specs.declared.names.EntryPoint.{EntryPoint};
ghost use Rattle.ta_asm.specs.declared.statement.Statement.{Statement};
ghost use Rattle.ta_asm.specs.declared.statement.Statement.TheVariants as statement;
ghost use Rattle.ta_asm.specs.Grammar.{Program, added, end_rules, has_header, line_rules, no_program, takes_code, targeted};
ghost use Rattle.ta_asm.specs.Reading.{Defines, HasLabels, IsTaken, IsTargeted, Ends};

use crate::fault::AsmFault;
use crate::labels::Labels;
use crate::name::Name;
use crate::names::EntryPoint;
use crate::statement::Statement;
use base::Sequence;
use std::alloc::Global;
use std::marker::Model;
use ta_isa::{ALLOWED_FLAGS, Image, Instr, MAX_INSTRUCTIONS, MAX_PAGES};

/// The lines of the header: flags, pages and five entry points.
const HEADER_LINES: u8 = 7;

/// Whether a word of flags has only bits that an image may have.
#[tactic(auto, unfolding(ta_isa::specs::Spelling::are_allowed))]
fn are_allowed(flags: u32) -> bool
    ensures { result ≡ are_allowed flags }
{
    ALLOWED_FLAGS & flags == flags
}

/// How many of the lines of the header there are, what they say, and the instructions behind them.
#[derive(Drop)]
pub struct Draft {
    parts: u8,
    flags: u32,
    pages: u32,
    entries: [u32; 5],
    code: Vec<Instr>,
}

impl Model for Draft {
    ghost use Rattle.std.specs.Prelude.{◌≤◌};
    ghost use Rattle.ta_asm.specs.Grammar.{Program};

    ghost Value = { Program };

    ghost view = { λ d. record { parts = d.parts; flags = d.flags; pages = d.pages; entries = d.entries; code = d.code.items } };

    ghost invariant = { λ d. d.parts ≤ 7 };
}

impl Draft {
    /// Before the first line.
    pub fn new(alloc: Global) -> Draft
        ensures { result ≡ no_program }
    {
        Draft {
            parts: 0,
            flags: 0,
            pages: 0,
            entries: [0; 5],
            code: Vec::new(alloc),
        }
    }

    /// Whether the header is complete.
    fn has_header(&self) -> bool
        ensures { result ≡ has_header self.now }
    {
        self.parts == HEADER_LINES
    }

    /// Whether one more instruction may follow.
    fn takes_code(&self) -> bool
        ensures { result ≡ takes_code self.now }
    {
        self.has_header() && self.code.len() < MAX_INSTRUCTIONS as usize
    }

    /// A line `.flags`.
    #[tactic(auto, unfolding(crate::specs::Grammar::line_rules))]
    fn take_flags(&mut self, line: u32, flags: u32) -> Result<(), AsmFault>
        ensures { (all : List Statement) → IsTaken result (line_rules all self.old line (statement.Flags flags)) (added all self.old (statement.Flags flags)) self.new }
    {
        if self.parts != 0 || !are_allowed(flags) {
            return Err(AsmFault::BadLine(line));
        }
        self.parts = 1;
        self.flags = flags;
        Ok(())
    }

    /// A line `.pages`.
    #[tactic(auto, unfolding(crate::specs::Grammar::line_rules))]
    fn take_pages(&mut self, line: u32, pages: u32) -> Result<(), AsmFault>
        ensures { (all : List Statement) → IsTaken result (line_rules all self.old line (statement.Pages pages)) (added all self.old (statement.Pages pages)) self.new }
    {
        if self.parts != 1 || pages == 0 || pages > MAX_PAGES {
            return Err(AsmFault::BadLine(line));
        }
        self.parts = 2;
        self.pages = pages;
        Ok(())
    }

    /// A line `.entry`.
    #[tactic(auto, unfolding(crate::specs::Grammar::line_rules))]
    fn take_entry<'a>(
        &mut self,
        labels: &Labels<'a>,
        line: u32,
        point: EntryPoint,
        label: Name<'a>,
    ) -> Result<(), AsmFault>
        ensures { (all : List Statement) → Defines labels.now.map all
            → IsTaken result (line_rules all self.old line (statement.Entry point label.entry)) (added all self.old (statement.Entry point label.entry)) self.new }
    {
        if self.parts != point.number() + 2 {
            return Err(AsmFault::BadLine(line));
        }
        let Some(definition) = labels.find(&label) else {
            return Err(AsmFault::UnknownLabel(line));
        };
        self.parts += 1;
        self.entries[usize::from(point.number())] = definition.place;
        Ok(())
    }

    /// The line of a label.
    #[tactic(auto, unfolding(crate::specs::Grammar::line_rules))]
    fn take_label<'a>(
        &self,
        labels: &Labels<'a>,
        line: u32,
        label: Name<'a>,
    ) -> Result<(), AsmFault>
        ensures { (all : List Statement) → HasLabels labels.now all
            → IsTaken result (line_rules all self.now line (statement.Label label.entry)) self.now self.now }
    {
        if !self.has_header() || !labels.is_followed(line) {
            return Err(AsmFault::BadLine(line));
        }
        match labels.find(&label) {
            Some(definition) if definition.line == line => Ok(()),
            _ => Err(AsmFault::RepeatedLabel(line)),
        }
    }

    /// The line of an instruction.
    #[tactic(auto, unfolding(crate::specs::Grammar::line_rules))]
    fn take_code<'a>(
        &mut self,
        labels: &Labels<'a>,
        line: u32,
        instr: Instr,
        target: Option<Name<'a>>,
    ) -> Result<(), AsmFault>
        ensures { (all : List Statement) → Defines labels.now.map all
            → IsTaken result (line_rules all self.old line (statement.Code instr target.entry)) (added all self.old (statement.Code instr target.entry)) self.new }
    {
        if !self.takes_code() {
            return Err(AsmFault::BadLine(line));
        }
        let Some(instr) = targeted(labels, instr, target) else {
            return Err(AsmFault::UnknownLabel(line));
        };
        self.code.push(instr)?;
        Ok(())
    }

    /// Takes a line of this number, counted from 1.
    #[tactic(auto, unfolding(crate::specs::Grammar::line_rules))]
    pub fn take<'a>(
        &mut self,
        labels: &Labels<'a>,
        line: u32,
        statement: Statement<'a>,
    ) -> Result<(), AsmFault>
        ensures { (all : List Statement) → HasLabels labels.now all
            → IsTaken result (line_rules all self.old line statement.entry) (added all self.old statement.entry) self.new }
    {
        match statement {
            Statement::Nothing => Ok(()),
            Statement::Flags(flags) => self.take_flags(line, flags),
            Statement::Pages(pages) => self.take_pages(line, pages),
            Statement::Entry(point, label) => self.take_entry(labels, line, point, label),
            Statement::Label(label) => self.take_label(labels, line, label),
            Statement::Code(instr, target) => self.take_code(labels, line, instr, target),
            Statement::Unread => Err(AsmFault::BadLine(line)),
        }
    }

    /// The image of all lines, where this is the number behind the last one.
    #[tactic(auto, unfolding(crate::specs::Grammar::end_rules))]
    pub fn finish(self, line: u32) -> Result<Image, AsmFault>
        ensures { Ends result (end_rules self line) self }
    {
        let Draft {
            parts,
            flags,
            pages,
            entries,
            code,
        } = self;
        if parts != HEADER_LINES || code.is_empty() {
            return Err(AsmFault::BadLine(line));
        }
        Ok(Image {
            flags,
            pages,
            entries,
            code: Sequence::of(code),
        })
    }
}

/// An instruction with the place of its target, where that label is known.
fn targeted<'a>(labels: &Labels<'a>, instr: Instr, target: Option<Name<'a>>) -> Option<Instr>
    ensures { (all : List Statement) → Defines labels.now.map all → IsTargeted result all instr target.entry }
{
    match target {
        None => Some(instr),
        Some(name) => {
            let definition = labels.find(&name)?;
            Some(Instr {
                imm: definition.place,
                ..instr
            })
        }
    }
}
