ghost use Rattle.std.specs.Prelude.{◌≡◌, IfOk, IfErr, MatchResult, Some, Ok, Err};
ghost use Rattle.thread_slots.specs.Slot.{HoldsNoValue, is_free, resumed_from};

use crate::bad_resume::BadResume;
use std::mem;

/// What one slot holds.
#[derive(Drop)]
pub enum Slot<T> {
    /// No call.
    Free,
    /// A call that runs on the processor of this number.
    Active { cpu: u8 },
    /// A call that waits to be resumed by its client, and what it goes on with.
    Suspended { client: u32, cont: T },
}

impl<T> Slot<T> {
    /// It holds no call.
    pub fn is_free(&self) -> bool
        ensures { result ≡ is_free self.now }
    {
        matches!(self, Slot::Free)
    }

    /// Takes on another state. There is no value that would be lost.
    pub(crate) fn set(&mut self, next: Slot<T>)
        requires { HoldsNoValue self.old }
        ensures { self.new ≡ next }
    {
        match mem::replace(self, next) {
            Slot::Free | Slot::Active { cpu: _ } => {}
            Slot::Suspended { .. } => unreachable!(),
        }
    }

    /// The value, for its client.
    pub(crate) fn call_for(&self, client: u32) -> Result<&T, BadResume>
        ensures waiting { IfOk result (λ cont. resumed_from (Some self.now) client ≡ Ok cont.now) }
        ensures refused { IfErr result (λ refusal. resumed_from (Some self.now) client ≡ Err refusal) }
    {
        match self {
            Slot::Suspended { client: kept, cont } if *kept == client => Ok(cont),
            Slot::Suspended { client: kept, .. } => Err(BadResume::OtherClient(*kept)),
            Slot::Free | Slot::Active { cpu: _ } => Err(BadResume::NotSuspended),
        }
    }

    /// Hands the value out to its client, and makes the slot active.
    pub(crate) fn resume(&mut self, client: u32, cpu: u8) -> Result<T, BadResume>
        ensures answer { result ≡ resumed_from (Some self.old) client }
        ensures after { MatchResult result
            (λ _. self.new ≡ Slot.Active cpu)
            (λ _. self.new ≡ self.old) }
    {
        let Slot::Suspended { client: kept, .. } = self else {
            return Err(BadResume::NotSuspended);
        };
        if *kept != client {
            return Err(BadResume::OtherClient(*kept));
        }
        match mem::replace(self, Slot::Active { cpu }) {
            Slot::Suspended { client: _, cont } => Ok(cont),
            Slot::Free | Slot::Active { cpu: _ } => unreachable!(),
        }
    }
}
