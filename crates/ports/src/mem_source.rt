ghost use Rattle.std.specs.Prelude.{◌≡◌, ◌≢◌, ℕ, ◌<◌, ◌≤◌, ◌↔◌, ◌⊎◌, IsTrue, false, [], Some, length, min, take};
ghost use Rattle.ports.specs.FaultPlan.{is_failing, fresh};
ghost use Rattle.ports.specs.MemSource.{after_take};
ghost use Rattle.ports.specs.Port.{IfBytes, Moves, Rose};

use crate::fault_plan::FaultPlan;
use crate::source::{Source, Taken};
use std::marker::Model;

/// A source over bytes in memory, whose calls fail as they were told to.
#[derive(Drop)]
pub struct MemSource {
    bytes: Vec<u8>,
    /// How many of the bytes are gone.
    at: usize,
    plan: FaultPlan,
}

impl Model for MemSource {
    ghost use Rattle.std.specs.Prelude.{◌≤◌, drop, length};
    ghost use Rattle.ports.specs.MemSource.{SourceState};

    ghost Value = { SourceState };

    ghost view = { λ s. record { left = drop s.at s.bytes.items; plan = s.plan } };

    ghost invariant = { λ s. s.at ≤ length s.bytes.items };
}

impl MemSource {
    /// A source of these bytes. The calls of `take` whose numbers stand in `fails`, counted from 0, fail,
    /// and no others. Takes no memory.
    pub fn new(bytes: Vec<u8>, fails: Vec<u32>) -> MemSource
        ensures { result ≡ record { left = bytes.items; plan = fresh fails.items } }
    {
        MemSource {
            bytes,
            at: 0,
            plan: FaultPlan::new(fails),
        }
    }

    /// How many calls have failed. A count that has come to 2^64 - 1 stays there.
    pub fn faults(&self) -> u64
        ensures { result ≡ self.now.plan.faults }
    {
        self.plan.faults()
    }
}

impl Source for MemSource {
    ghost use Rattle.std.specs.Prelude.{Some};

    ghost left = { λ s. Some s.left };

    ghost faults = { λ s. s.plan.faults };

    fn take(&mut self, buf: &mut [u8]) -> Taken
        ensures bytes { IfBytes result (λ n. (0 < n) × (n ≤ length buf.old)) }
        ensures moved { IfBytes result (λ n.
            Moves (Some self.old.left) (Some self.new.left) (take n buf.new)) }
        ensures end { result ≡ Taken.End → (self.new.left ≡ self.old.left)
            × ((self.old.left ≡ []) ⊎ (length buf.old ≡ 0)) }
        ensures failed { result ≡ Taken.Failed → (self.new.left ≡ self.old.left)
            × Rose self.old.plan.faults self.new.plan.faults }
        ensures count { self.old.plan.faults ≤ self.new.plan.faults }
        ensures stays { result ≢ Taken.Failed → self.new.plan.faults ≡ self.old.plan.faults }

        // Which answer comes, and all that the call changes.
        ensures fails { (result ≡ Taken.Failed) ↔ IsTrue (is_failing self.old.plan) }
        ensures ends { is_failing self.old.plan ≡ false →
            ((result ≡ Taken.End) ↔ ((self.old.left ≡ []) ⊎ (length buf.old ≡ 0))) }
        ensures most { IfBytes result (λ n. n ≡ min (length buf.old) (length self.old.left)) }
        ensures state { self.new ≡ after_take self.old result }
    {
        if self.plan.begin_call() {
            return Taken::Failed;
        }
        let left = &self.bytes[self.at..];
        let count = left.len().min(buf.len());
        if count == 0 {
            return Taken::End;
        }
        buf[..count].copy_from_slice(&left[..count]);
        self.at += count;
        Taken::Bytes(count)
    }
}
