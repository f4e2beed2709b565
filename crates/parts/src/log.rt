ghost use Rattle.std.specs.Prelude.{◌≡◌, ◌∷◌, [], ◌++◌, MatchBool};

use core_lock::Logged;

/// What was written, and under which number.
#[derive(Clone, Copy, Drop)]
pub struct Line {
    pub by: u32,
    pub word: u32,
}

/// Lines in the order in which they were written, under a title that stays.
#[derive(Drop)]
pub struct Log {
    pub title: u32,
    pub lines: Vec<Line>,
}

impl Logged for Log {
    ghost use Rattle.parts.specs.Lines.{all_lines, writer, title};

    type Entry = Line;

    type Basis = u32;

    ghost entries = { all_lines };

    ghost maker = { writer };

    ghost basis = { title };

    fn length(&self) -> u64 {
        self.lines.len() as u64
    }
}

impl Log {
    /// Writes a line, unless there is no memory for it.
    pub fn write(&mut self, line: Line) -> bool
        ensures title { self.new.title ≡ self.old.title }
        ensures lines { MatchBool result (self.new.lines.items ≡ self.old.lines.items ++ line ∷ []) (self.new.lines.items ≡ self.old.lines.items) }
    {
        self.lines.push(line).is_ok()
    }
}
