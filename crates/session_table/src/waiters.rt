ghost use Rattle.std.specs.Prelude.{◌≡◌, ◌<◌, ◌==◌, [], ◌∷◌, ◌++◌, false, true};
ghost use Rattle.session_table.specs.Waiters.{IsLine, first_of, instance_with, waits, without};

use arrayvec::ArrayVec;
use std::marker::Model;
use uuid::Uuid;

/// The most calls that wait at a time: one for each thread slot that a core may have.
pub const MAX_WAITERS: usize = 16;

/// A call that waits for an instance.
#[derive(Clone, Copy, Default)]
pub struct Waiter {
    /// The number of the instance.
    pub instance: u32,
    /// The UUID of the instance's application.
    pub uuid: Uuid,
    /// The thread slot of the call, below 16.
    pub slot: u8,
}

/// The calls that wait for an instance, each in a slot of its own, in the order in which they began to.
/// No call takes memory.
#[derive(Drop)]
pub struct Waiters {
    waiters: ArrayVec<Waiter, MAX_WAITERS>,
}

impl Model for Waiters {
    ghost use Rattle.std.specs.Prelude.{List};
    ghost use Rattle.session_table.specs.declared.waiters.Waiter.{Waiter};
    ghost use Rattle.session_table.specs.Waiters.{IsLine};

    ghost Value = { List Waiter };

    ghost view = { λ w. w.waiters.items };

    ghost invariant = { λ w. IsLine w.waiters.items };
}

impl Waiters {
    /// No call waits.
    pub fn new() -> Waiters
        ensures { result ≡ [] }
    {
        Waiters {
            waiters: ArrayVec::new(),
        }
    }

    /// Puts the call of a slot at the end of the line.
    pub fn join(&mut self, instance: u32, uuid: Uuid, slot: u8)
        requires in_range { slot < 16 }
        requires absent { waits self.old slot ≡ false }
        ensures { self.new ≡ self.old ++ record { instance = instance; uuid = uuid; slot = slot } ∷ [] }
    {
        self.waiters.push(Waiter {
            instance,
            uuid,
            slot,
        });
    }

    /// Takes the call of a slot out of the line. The others keep their order.
    pub fn leave(&mut self, slot: u8)
        requires { waits self.old slot ≡ true }
        ensures { self.new ≡ without self.old slot }
    {
        self.waiters.retain(|waiter| waiter.slot != slot);
    }

    /// The slot of the first call that waits for the instance.
    pub fn first(&self, instance: u32) -> Option<u8>
        ensures slot { result ≡ first_of self.now instance }
        ensures line { IsLine self.now }
    {
        let first = self
            .waiters
            .iter()
            .find(|waiter| waiter.instance == instance)?;
        Some(first.slot)
    }

    /// The instance of the first call that waits for an application with this UUID.
    pub fn instance_of(&self, uuid: &Uuid) -> Option<u32>
        ensures { result ≡ instance_with self.now uuid.now }
    {
        let first = self.waiters.iter().find(|waiter| waiter.uuid == *uuid)?;
        Some(first.instance)
    }
}
