//! The calls by their numbers, and the line of those that wait.
ghost use Rattle.std.specs.Prelude.{◌≡◌, ◌==◌, ◌<◌, ◌^◌, ◌++◌, ◌∷◌, [], not, filter, find, slice_get, slice_set, None, Some, OnErr, OnOk};
ghost use Rattle.std.specs.Option.{option_and_then, option_copied, option_map};
ghost use Rattle.group_model.specs.Group.{GroupWaiter};
ghost use Rattle.group_solo.specs.Standing.{entered_in, waiters_of};

use crate::group::GroupSolo;
use crate::kept_call::KeptCall;
use crate::waiter::Waiter;
use base::NoMemory;

/// Takes the call at a place, where there is one.
fn take_at(calls: &mut [Option<Box<KeptCall>>], place: usize) -> Option<Box<KeptCall>>
    ensures call { result ≡ option_and_then (λ call. call) (slice_get calls.old place) }
    ensures after { calls.new ≡ slice_set calls.old place None }
{
    if place >= calls.len() {
        return None;
    }
    calls[place].take()
}

/// Puts a call at a place.
fn put_at(calls: &mut [Option<Box<KeptCall>>], place: usize, call: Box<KeptCall>)
    ensures { calls.new ≡ slice_set calls.old place (Some call) }
{
    if place < calls.len() {
        calls[place] = Some(call);
    }
}

/// The first of those that wait for the instance of a number.
fn waiter_for(waiting: &[Waiter], instance: u64) -> Option<&Waiter>
    ensures { option_copied result ≡ find (λ waiter. waiter.instance == instance) waiting.now }
{
    waiting.iter().find(|waiter| waiter.instance == instance)
}

/// Its call.
fn first_for(waiting: &[Waiter], instance: u64) -> Option<u32>
    ensures { result ≡ option_map (λ (waiter : GroupWaiter). waiter.call)
        (find (λ (waiter : GroupWaiter). waiter.instance == instance) (waiters_of waiting.now)) }
{
    let Some(first) = waiter_for(waiting, instance) else {
        return None;
    };
    Some(first.call)
}

/// What the call at a place was told of room, if it was.
fn room_at(calls: &[Option<Box<KeptCall>>], place: usize) -> Option<bool>
    ensures { result ≡ option_and_then (λ call. option_and_then (λ call. call.value.room) call) (slice_get calls.now place) }
{
    match calls.get(place) {
        Some(Some(call)) => call.room,
        Some(None) | None => None,
    }
}

impl GroupSolo {
    /// What the call of a number was told of room, if it was.
    pub(crate) fn room_of(&self, number: u32) -> Option<bool>
        ensures { result ≡ option_and_then (λ call. option_and_then (λ call. call.value.room) call)
            (slice_get self.now.calls.items number) }
    {
        room_at(self.calls.as_slice(), number as usize)
    }

    /// Takes the call of a number out, where there is one.
    pub(crate) fn take(&mut self, number: u32) -> Option<Box<KeptCall>>
        ensures call { result ≡ option_and_then (λ call. call) (slice_get self.old.calls.items number) }
        ensures after { self.new.calls.items ≡ slice_set self.old.calls.items number None }
        ensures stays { self.new ≡ record self.old { calls = self.new.calls } }
    {
        take_at(self.calls.as_mut_slice(), number as usize)
    }

    /// Puts it back.
    pub(crate) fn put(&mut self, number: u32, call: Box<KeptCall>)
        ensures after { self.new.calls.items ≡ slice_set self.old.calls.items number (Some call) }
        ensures stays { self.new ≡ record self.old { calls = self.new.calls } }
    {
        put_at(self.calls.as_mut_slice(), number as usize, call);
    }

    /// The number of the next call that comes in.
    pub(crate) fn next_number(&self) -> u32
        requires { entered_in self.now < 2 ^ 32 }
        ensures { result ≡ entered_in self.now }
    {
        self.calls.len() as u32
    }

    /// A call comes in with the next number.
    pub(crate) fn add(&mut self, call: Box<KeptCall>) -> Result<(), NoMemory>
        ensures ok { OnOk result (self.new.calls.items ≡ self.old.calls.items ++ Some call ∷ []) }
        ensures err { OnErr result (self.new.calls.items ≡ self.old.calls.items) }
        ensures stays { self.new ≡ record self.old { calls = self.new.calls } }
    {
        self.calls.push(Some(call))?;
        Ok(())
    }

    /// The call of this number waits no more.
    pub(crate) fn leave_line(&mut self, number: u32)
        ensures after { waiters_of self.new.waiting.items
            ≡ filter (λ (waiter : GroupWaiter). not (waiter.call == number)) (waiters_of self.old.waiting.items) }
        ensures stays { self.new ≡ record self.old { waiting = self.new.waiting } }
    {
        self.waiting.retain(|waiter| waiter.call != number);
    }

    /// The first call that waits for the instance of a number.
    pub(crate) fn first_waiter(&self, instance: u64) -> Option<u32>
        ensures { result ≡ option_map (λ (waiter : GroupWaiter). waiter.call)
            (find (λ (waiter : GroupWaiter). waiter.instance == instance) (waiters_of self.now.waiting.items)) }
    {
        first_for(self.waiting.as_slice(), instance)
    }
}
