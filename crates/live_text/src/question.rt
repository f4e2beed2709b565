ghost use Rattle.std.specs.Prelude.{◌≡◌, map};
ghost use Rattle.live_text.specs.Asking.{kind_asked, kind_in};

/// What a line asks. It is no line of a trace, and counts as none.
#[derive(Clone, Copy, Debug, PartialEq, Eq)]
pub enum Question {
    /// That each exit is followed by what it changes in RAM, or that none is.
    Watch(bool),
    /// What the core keeps.
    State,
    /// What the core keeps of the session of this number.
    Session(u32),
    /// What the core keeps of the registered buffer of this cookie.
    Buffer(u64),
    /// At most so many events, 1 to 1024, from the one of this number on. The first has number 0.
    Events { from: u32, count: u32 },
}

/// What a question tells by its first word.
#[derive(Clone, Copy)]
pub enum QuestionKind {
    Watch,
    State,
    Session,
    Buffer,
    Events,
}

/// The first word of each kind of question.
const QUESTIONS: [(&[u8], QuestionKind); 5] = [
    (b"watch", QuestionKind::Watch),
    (b"state", QuestionKind::State),
    (b"session", QuestionKind::Session),
    (b"buffer", QuestionKind::Buffer),
    (b"events", QuestionKind::Events),
];

/// The kind beside the first row of this word.
fn kind_in(rows: &[(&[u8], QuestionKind)], word: &[u8]) -> Option<QuestionKind>
    ensures { result ≡ kind_in (map (λ row. (row.0.now, row.1)) rows.now) word.now }
{
    for (name, kind) in rows {
        if word == *name {
            return Some(*kind);
        }
    }
    None
}

impl QuestionKind {
    /// The kind of the questions that begin with this word.
    #[tactic(auto, unfolding(crate::specs::Asking::kind_asked))]
    pub(crate) fn named(word: &[u8]) -> Option<QuestionKind>
        ensures { result ≡ kind_asked word.now }
    {
        kind_in(&QUESTIONS, word)
    }
}
