ghost use Rattle.std.specs.Prelude.{◌≡◌, ◌≤◌, MatchBool};
ghost use Rattle.ports.specs.FaultPlan.{is_failing, fresh, passed, failed};

use std::marker::Model;

/// Which calls fail, the number of the next call, and how many have failed.
#[derive(Drop)]
pub(crate) struct FaultPlan {
    /// The numbers of the calls that fail, counted from 0.
    fails: Vec<u32>,
    /// The number of the next call. One that has come to 2^64 - 1 stays there, where no call fails.
    calls: u64,
    /// One that has come to 2^64 - 1 stays there.
    faults: u64,
}

impl Model for FaultPlan {
    ghost use Rattle.ports.specs.FaultPlan.{Plan};

    ghost Value = { Plan };

    ghost view = { λ p. record { fails = p.fails.items; calls = p.calls; faults = p.faults } };
}

impl FaultPlan {
    /// A plan whose first call comes next. Takes no memory.
    pub(crate) fn new(fails: Vec<u32>) -> FaultPlan
        ensures { result ≡ fresh fails.items }
    {
        FaultPlan {
            fails,
            calls: 0,
            faults: 0,
        }
    }

    /// Counts a call, and a fault where it fails. Says whether it fails.
    pub(crate) fn begin_call(&mut self) -> bool
        ensures failing { result ≡ is_failing self.old }
        ensures counted { MatchBool result (self.new ≡ failed self.old) (self.new ≡ passed self.old) }
        ensures faults { self.old.faults ≤ self.new.faults }
    {
        let call = self.calls;
        self.calls = call.saturating_add(1);
        let fails = self.fails.iter().any(|number| u64::from(*number) == call);
        if fails {
            self.faults = self.faults.saturating_add(1);
        }
        fails
    }

    /// How many calls have failed.
    pub(crate) fn faults(&self) -> u64
        ensures { result ≡ self.now.faults }
    {
        self.faults
    }
}
