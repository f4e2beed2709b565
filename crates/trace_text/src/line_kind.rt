ghost use Rattle.std.specs.Prelude.{◌≡◌, map};
ghost use Rattle.trace_text.specs.Rules.{kind_in, kind_named, words_behind};

/// What a line that is not skipped tells, by its first word.
#[derive(Clone, Copy)]
pub enum LineKind {
    Boot,
    Ta,
    Mem,
    Key,
    Smc,
    Enter,
    Leave,
    Write,
    Show,
}

/// The first word of each kind of line.
const LINES: [(&[u8], LineKind); 9] = [
    (b"boot", LineKind::Boot),
    (b"ta", LineKind::Ta),
    (b"mem", LineKind::Mem),
    (b"key", LineKind::Key),
    (b"smc", LineKind::Smc),
    (b"enter", LineKind::Enter),
    (b"leave", LineKind::Leave),
    (b"write", LineKind::Write),
    (b"show", LineKind::Show),
];

/// The kind beside the first row of this word.
fn kind_in(rows: &[(&[u8], LineKind)], word: &[u8]) -> Option<LineKind>
    ensures { result ≡ kind_in (map (λ row. (row.0.now, row.1)) rows.now) word.now }
{
    for (name, kind) in rows {
        if word == *name {
            return Some(*kind);
        }
    }
    None
}

impl LineKind {
    /// The kind of the lines that begin with this word.
    #[tactic(auto, unfolding(crate::specs::Rules::kind_named))]
    pub fn named(word: &[u8]) -> Option<LineKind>
        ensures { result ≡ kind_named word.now }
    {
        kind_in(&LINES, word)
    }

    /// How many words stand behind the first one.
    pub fn words_behind(self) -> usize
        ensures { result ≡ words_behind self }
    {
        match self {
            LineKind::Boot | LineKind::Write | LineKind::Show => 3,
            LineKind::Ta | LineKind::Mem => 2,
            LineKind::Smc | LineKind::Enter => 10,
            LineKind::Key | LineKind::Leave => 1,
        }
    }
}
