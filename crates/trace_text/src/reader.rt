//! Taking lines one after the other.

ghost use Rattle.std.specs.Prelude.{◌≡◌, ℕ, [], List, true};
ghost use Rattle.trace_text.specs.Grammar.{piece_fault};
ghost use Rattle.trace_text.specs.Judging.{Ends, IsTaken};
ghost use Rattle.trace_text.specs.Rules.{after_line, line_rules};

use crate::builder::Builder;
use crate::fault::{BadKind, LineFault};
use crate::line::is_text;
use crate::trace::Trace;
use std::alloc::Global;
use uuid::Uuid;

impl Builder {
    /// Takes a line, which is given without its line feed.
    pub fn take(&mut self, alloc: Global, natives: &[Uuid], line: &[u8]) -> Result<(), LineFault>
        ensures { IsTaken result (line_rules natives.now self.old true line.now) (after_line self.old line.now) self.new }
    {
        let said = self.scene().judge(alloc, natives, false, line)?;
        self.push(said)
    }

    /// The trace, where the text ends with these bytes behind its last line feed.
    #[tactic(auto, unfolding(line_grammar::specs::Grammar::piece_fault, crate::specs::Rules::line_rules))]
    pub fn finish_text(self, rest: &[u8]) -> Result<Trace, BadKind>
        ensures { (natives : List (List ℕ)) → Ends result (piece_fault natives self rest.now []) self }
    {
        if !rest.is_empty() {
            return Err(if is_text(rest) {
                BadKind::Cut
            } else {
                BadKind::Byte
            });
        }
        self.finish()
    }
}
