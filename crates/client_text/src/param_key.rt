ghost use Rattle.std.specs.Prelude.{◌≡◌, map};
ghost use Rattle.client_text.specs.Forms.{key_in, key_named};

/// What a parameter is, by the first part of its word.
#[derive(Clone, Copy)]
pub(crate) enum ParamKey {
    Empty,
    ValueIn,
    ValueOut,
    ValueInout,
    MemoryIn,
    MemoryOut,
    MemoryInout,
}

/// The first part of each parameter.
const KEYS: [(&[u8], ParamKey); 7] = [
    (b"none", ParamKey::Empty),
    (b"vi", ParamKey::ValueIn),
    (b"vo", ParamKey::ValueOut),
    (b"vio", ParamKey::ValueInout),
    (b"mi", ParamKey::MemoryIn),
    (b"mo", ParamKey::MemoryOut),
    (b"mio", ParamKey::MemoryInout),
];

/// The key beside the first row of this word.
fn key_in(rows: &[(&[u8], ParamKey)], word: &[u8]) -> Option<ParamKey>
    ensures { result ≡ key_in (map (λ row. (row.0.now, row.1)) rows.now) word.now }
{
    for (name, key) in rows {
        if word == *name {
            return Some(*key);
        }
    }
    None
}

impl ParamKey {
    /// The key of the parameters that begin with this part.
    #[tactic(auto, unfolding(crate::specs::Forms::key_named))]
    pub(crate) fn named(part: &[u8]) -> Option<ParamKey>
        ensures { result ≡ key_named part.now }
    {
        key_in(&KEYS, part)
    }
}
