//! How the call of an open entry is taken on by its granted steps.
ghost use Rattle.std.specs.Prelude.{◌≡◌};
ghost use Rattle.std.specs.Option.{option_copied};
ghost use Rattle.kernel_state.specs.Carried.{running_call};
ghost use Rattle.kernel_state.specs.Work.{IsRanOf};

use crate::carried::Carried;
use crate::work::{Ran, Work};
use frame_pool::Pages;
use rpc_cont::Cont;

impl Work {
    #[tactic(auto, using(crate::proofs::Granting::granted_call_runs, crate::proofs::Granting::granted_steps_fit))]
    /// Takes the call that runs on by the granted steps. Takes no memory, and needs no core.
    pub fn run(self) -> Ran
        ensures { IsRanOf self result }
    {
        let Work {
            cpu,
            entry_at,
            steps,
            call,
        } = self;
        let (call, stop) = match call {
            Carried::Running(mut cont) => {
                let stop = cont.advance(steps);
                (Carried::Running(cont), Some(stop))
            }
            Carried::Nothing | Carried::Resting(_) => (call, None),
        };
        Ran {
            cpu,
            entry_at,
            call,
            stop,
        }
    }

    /// The call, none of whose granted steps are done. None exactly where the entry left no call of this processor that
    /// runs.
    pub fn cont(&self) -> Option<&Cont<Pages>>
        ensures { option_copied result ≡ running_call self.now.call }
    {
        self.call.running()
    }
}

impl Ran {
    /// The call with all granted steps done, or as many as it took to stop. None exactly where the entry left no call of
    /// this processor that runs.
    pub fn cont(&self) -> Option<&Cont<Pages>>
        ensures { option_copied result ≡ running_call self.now.call }
    {
        self.call.running()
    }
}
