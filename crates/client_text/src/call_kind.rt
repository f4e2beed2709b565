ghost use Rattle.std.specs.Prelude.{◌≡◌, map};
ghost use Rattle.client_text.specs.Rules.{call_in, call_named};

/// Which call a line is, by its first word.
#[derive(Clone, Copy)]
pub(crate) enum CallKind {
    Open,
    Invoke,
    Close,
}

/// The first word of each kind of call.
const CALLS: [(&[u8], CallKind); 3] = [
    (b"open", CallKind::Open),
    (b"invoke", CallKind::Invoke),
    (b"close", CallKind::Close),
];

/// The kind beside the first row of this word.
fn call_in(rows: &[(&[u8], CallKind)], word: &[u8]) -> Option<CallKind>
    ensures { result ≡ call_in (map (λ row. (row.0.now, row.1)) rows.now) word.now }
{
    for (name, kind) in rows {
        if word == *name {
            return Some(*kind);
        }
    }
    None
}

impl CallKind {
    /// The kind of the calls that begin with this word.
    #[tactic(auto, unfolding(crate::specs::Rules::call_named))]
    pub(crate) fn named(word: &[u8]) -> Option<CallKind>
        ensures { result ≡ call_named word.now }
    {
        call_in(&CALLS, word)
    }
}
