/// How long a call goes on, whatever is answered.
#[derive(Clone, Copy)]
pub(crate) struct Limits {
    /// How often it is made, where no thread is free.
    pub(crate) retries: u32,
    /// How many of its RPC returns are answered.
    pub(crate) rounds: u32,
    /// Before the answer to which of them it is cancelled, counted from 1.
    pub(crate) cancel_after: Option<u32>,
}

impl Limits {
    ghost use Rattle.std.specs.Prelude.{◌≡◌, ◌==◌, false};
    ghost use Rattle.std.specs.Option.{option_map_or};

    /// Whether the call is cancelled before its return of this number is answered.
    pub(crate) fn cancels_at(&self, number: u32) -> bool
        ensures { result ≡ option_map_or (λ after. after == number) self.now.cancel_after false }
    {
        self.cancel_after == Some(number)
    }
}
