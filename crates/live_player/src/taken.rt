//! How a line was taken.

ghost use Rattle.std.specs.Prelude.{◌≡◌};
ghost use Rattle.live_player.specs.Panicking.{taken_as};

/// How a line was taken that keeps its rules.
#[derive(Clone, Copy, Debug, PartialEq, Eq)]
pub enum Taken {
    /// It counts.
    Done,
    /// Its entry is refused, where those before it have read so many bytes. It changes nothing.
    Full(u64),
}

/// How a line was played that keeps its rules.
#[derive(Clone, Copy)]
pub(crate) enum Played {
    /// It counts. The call of its exit has ended in the panic of this code, if it did.
    Done(Option<u32>),
    /// Its entry is refused, where those before it have read so many bytes. It changes nothing.
    Full(u64),
}

impl Played {
    /// How its line was taken, without the panic.
    pub(crate) fn taken(self) -> Taken
        ensures { result ≡ taken_as self }
    {
        match self {
            Played::Done(_) => Taken::Done,
            Played::Full(copied) => Taken::Full(copied),
        }
    }
}
