ghost use Rattle.std.specs.Prelude.{◌≡◌};
ghost use Rattle.std.specs.Option.{option_copied};
ghost use Rattle.kernel_state.specs.Carried.{running_call};

use frame_pool::Pages;
use rpc_cont::Cont;

/// What a processor carries from its entry to its exit.
#[derive(Drop)]
pub enum Carried {
    /// No call: its answer was fixed as it came in.
    Nothing,
    /// A call that doesn't run: it asks for something, waits for its instance, or has ended.
    Resting(Box<Cont<Pages>>),
    /// A call that runs.
    Running(Box<Cont<Pages>>),
}

impl Carried {
    /// The call that runs, if one does.
    pub(crate) fn running(&self) -> Option<&Cont<Pages>>
        ensures { option_copied result ≡ running_call self.now }
    {
        match self {
            Carried::Running(cont) => Some(cont),
            Carried::Nothing | Carried::Resting(_) => None,
        }
    }
}
