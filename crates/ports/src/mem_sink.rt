ghost use Rattle.std.specs.Prelude.{◌≡◌, ◌≢◌, ℕ, ◌≤◌, ◌↔◌, IsTrue, [], Some, take};
ghost use Rattle.ports.specs.FaultPlan.{is_failing, fresh};
ghost use Rattle.ports.specs.MemSink.{after_put};
ghost use Rattle.ports.specs.Port.{Appends, Rose};

use crate::fault_plan::FaultPlan;
use crate::sink::{Put, Sink};
use std::alloc::Global;
use std::marker::Model;

/// A sink that holds its bytes in memory, and whose calls fail as they were told to.
#[derive(Drop)]
pub struct MemSink {
    held: Vec<u8>,
    plan: FaultPlan,
}

impl Model for MemSink {
    ghost use Rattle.ports.specs.MemSink.{SinkState};

    ghost Value = { SinkState };

    ghost view = { λ s. record { held = s.held.items; plan = s.plan } };
}

impl MemSink {
    /// A sink that holds nothing, and grows by the allocator. The calls of `put` whose numbers stand in
    /// `fails`, counted from 0, fail, and no others. Takes no memory.
    pub fn new(alloc: Global, fails: Vec<u32>) -> MemSink
        ensures { result ≡ record { held = []; plan = fresh fails.items } }
    {
        MemSink {
            held: Vec::new(alloc),
            plan: FaultPlan::new(fails),
        }
    }

    /// What it holds.
    pub fn bytes(&self) -> &[u8]
        ensures { result.now ≡ self.now.held }
    {
        self.held.as_slice()
    }

    /// Gives out what it holds. Takes no memory.
    pub fn into_bytes(self) -> Vec<u8>
        ensures { result.items ≡ self.held }
    {
        self.held
    }

    /// How many calls have failed. A count that has come to 2^64 - 1 stays there.
    pub fn faults(&self) -> u64
        ensures { result ≡ self.now.plan.faults }
    {
        self.plan.faults()
    }
}

impl Sink for MemSink {
    ghost use Rattle.std.specs.Prelude.{Some};

    ghost held = { λ s. Some s.held };

    ghost faults = { λ s. s.plan.faults };

    /// A call that fails appends nothing.
    fn put(&mut self, bytes: &[u8]) -> Put
        ensures done { result ≡ Put.Done → Appends (Some self.old.held) (Some self.new.held) bytes.now }
        ensures failed { result ≡ Put.Failed → Rose self.old.plan.faults self.new.plan.faults
            × ((n : ℕ) × Appends (Some self.old.held) (Some self.new.held) (take n bytes.now)) }
        ensures memory { result ≡ Put.Memory → self.new.held ≡ self.old.held }
        ensures count { self.old.plan.faults ≤ self.new.plan.faults }
        ensures stays { result ≢ Put.Failed → self.new.plan.faults ≡ self.old.plan.faults }

        // Which call fails, and all that a call changes.
        ensures fails { (result ≡ Put.Failed) ↔ IsTrue (is_failing self.old.plan) }
        ensures state { self.new ≡ after_put self.old bytes.now result }
    {
        if self.plan.begin_call() {
            return Put::Failed;
        }
        match self.held.extend_from_slice(bytes) {
            Ok(()) => Put::Done,
            Err(_) => Put::Memory,
        }
    }
}
