ghost use Rattle.std.specs.Prelude.{◌≡◌, ◌<◌, ◌≤◌, ◌↔◌, length, replicate, slice_get, slice_set, count_by, IfOk, IfErr, IfSome, IsNone, MatchOption, MatchResult, Some, Ok, Err};
ghost use Rattle.thread_slots.specs.Slot.{is_free};
ghost use Rattle.thread_slots.specs.Slots.{IsActiveAt, lowest_free, resumed};

use crate::bad_resume::BadResume;
use crate::slot::Slot;
use base::NoMemory;
use std::alloc::Global;
use std::marker::Model;

/// The most slots that a core may have.
pub const MAX_SLOTS: u8 = 16;

/// Slots for calls that are under way, which contracts see as the list of what each holds, by its number.
/// `T` is what a suspended call goes on with. It is moved in and out, and never copied.
#[derive(Drop)]
pub struct Slots<T> {
    slots: Vec<Slot<T>>,
}

impl<T> Model for Slots<T> {
    ghost use Rattle.std.specs.Prelude.{◌<◌, ◌≤◌, List, length};
    ghost use Rattle.thread_slots.specs.declared.slot.Slot.{Slot};

    ghost Value = { List (Slot T) };

    ghost view = { λ s. s.slots.items };

    ghost invariant = { λ s. (0 < length s.slots.items) × (length s.slots.items ≤ 16) };
}

impl<T> Slots<T> {
    /// `count` free slots. No call after this one takes memory.
    pub fn new(alloc: Global, count: u8) -> Result<Slots<T>, NoMemory>
        requires some { 0 < count }
        requires at_most { count ≤ 16 }
        ensures { IfOk result (λ slots. slots ≡ replicate count Slot.Free) }
    {
        let mut slots = Vec::with_capacity(alloc, usize::from(count))?;
        for _i in 0..count {
            slots.push_reserved(Slot::Free);
        }
        Ok(Slots { slots })
    }

    /// How many slots there are.
    pub fn count(&self) -> u8
        ensures count { result ≡ length self.now }
        ensures some { 0 < length self.now }
        ensures at_most { length self.now ≤ 16 }
    {
        self.slots.len() as u8
    }

    /// How many slots are free.
    pub fn free(&self) -> u8
        ensures { result ≡ count_by is_free self.now }
    {
        self.slots.iter().filter(|slot| slot.is_free()).count() as u8
    }

    /// What each slot holds.
    pub fn as_slice(&self) -> &[Slot<T>]
        ensures { result.now ≡ self.now }
    {
        self.slots.as_slice()
    }

    /// Gives up what each slot holds, for an owner whose values may not be dropped.
    pub fn into_vec(self) -> Vec<Slot<T>>
        ensures { result.items ≡ self }
    {
        let Slots { slots } = self;
        slots
    }

    /// Makes the lowest free slot active on the processor, and tells its number.
    #[tactic(auto, using(crate::proofs::FreeSlots::at_lowest))]
    pub fn enter(&mut self, cpu: u8) -> Option<u8>
        ensures slot { result ≡ lowest_free self.old }
        ensures after { MatchOption result
            (self.new ≡ self.old)
            (λ slot. self.new ≡ slice_set self.old slot (Slot.Active cpu)) }
        ensures none { IsNone result ↔ (count_by is_free self.old ≡ 0) }
        ensures free { IfSome result (λ slot. slice_get self.old slot ≡ Some Slot.Free) }
    {
        let slot = self.find_free()?;
        self.slots[slot].set(Slot::Active { cpu });
        Some(slot as u8)
    }

    fn find_free(&self) -> Option<usize>
        ensures { result ≡ lowest_free self.now }
    {
        self.slots.iter().position(|slot| slot.is_free())
    }

    /// Keeps the call of an active slot, until its client resumes it.
    pub fn suspend(&mut self, slot: u8, client: u32, cont: T)
        requires { IsActiveAt self.old slot }
        ensures { self.new ≡ slice_set self.old slot (Slot.Suspended client cont) }
    {
        self.slots[usize::from(slot)].set(Slot::Suspended { client, cont });
    }

    /// Frees an active slot, whose call has ended.
    pub fn leave(&mut self, slot: u8)
        requires { IsActiveAt self.old slot }
        ensures { self.new ≡ slice_set self.old slot Slot.Free }
    {
        self.slots[usize::from(slot)].set(Slot::Free);
    }

    /// What the call of a suspended slot goes on with, by the refusals of `resume`. Nothing is moved.
    pub fn suspended_call(&self, slot: u32, client: u32) -> Result<&T, BadResume>
        ensures waiting { IfOk result (λ cont. resumed self.now slot client ≡ Ok cont.now) }
        ensures refused { IfErr result (λ refusal. resumed self.now slot client ≡ Err refusal) }
    {
        match self.slots.get(slot as usize) {
            Some(held) => held.call_for(client),
            None => Err(BadResume::NoSlot),
        }
    }

    /// Hands out what the call of a suspended slot goes on with, and makes the slot active on the processor.
    /// The number of the slot and that of the client are a caller's, and need not fit.
    pub fn resume(&mut self, slot: u32, client: u32, cpu: u8) -> Result<T, BadResume>
        ensures answer { result ≡ resumed self.old slot client }
        ensures after { MatchResult result
            (λ _. self.new ≡ slice_set self.old slot (Slot.Active cpu))
            (λ _. self.new ≡ self.old) }
    {
        let Some(held) = self.slots.get_mut(slot as usize) else {
            return Err(BadResume::NoSlot);
        };
        held.resume(client, cpu)
    }
}
