//! The lines of a text, one after the other.

ghost use Rattle.std.specs.Prelude.{◌≡◌, [], ◌∷◌, MatchOption};
ghost use Rattle.ta_asm.specs.Lines.{statements_of};

use crate::statement::{Statement, statement_of};
use std::marker::Model;
use text_lines::split_line;

/// The lines of a text that are still to be read. A contract sees what each of them says.
#[derive(Drop)]
pub struct Statements<'a> {
    rest: &'a [u8],
}

impl<'a> Model for Statements<'a> {
    ghost use Rattle.std.specs.Prelude.{List};
    ghost use Rattle.ta_asm.specs.declared.statement.Statement.{Statement};
    ghost use Rattle.ta_asm.specs.Lines.{statements_of};

    ghost Value = { List Statement };

    ghost view = { λ s. statements_of s.rest.now };
}

impl<'a> Statements<'a> {
    /// All lines of the text.
    pub fn of(text: &'a [u8]) -> Statements<'a>
        ensures { result ≡ statements_of text.now }
    {
        Statements { rest: text }
    }

    /// What the next line says. A last line without its line feed says nothing.
    pub fn next_statement(&mut self) -> Option<Statement<'a>>
        ensures { MatchOption result (self.old ≡ []) (λ s. self.old ≡ s ∷ self.new) }
    {
        if self.rest.is_empty() {
            return None;
        }
        match split_line(self.rest) {
            Some((line, after)) => {
                self.rest = after;
                Some(statement_of(line))
            }
            None => {
                self.rest = &[];
                Some(Statement::Unread)
            }
        }
    }
}
