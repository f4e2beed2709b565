//! The calls by their numbers, and the line of those that wait.
ghost use Rattle.std.specs.Prelude.{◌≡◌, ◌==◌, ◌<◌, ◌^◌, ◌++◌, ◌∷◌, [], not, filter, slice_get, slice_set, None, Some, OnErr, OnOk};
ghost use Rattle.std.specs.Option.{option_and_then};
ghost use Rattle.solo.specs.Standing.{entered_in};

use crate::solo_session::SoloSession;
use base::NoMemory;
use rpc_cont::Cont;
use ta_step::Plain;

/// Takes the call at a place, where there is one.
fn take_at(calls: &mut [Option<Box<Cont<Plain>>>], place: usize) -> Option<Box<Cont<Plain>>>
    ensures call { result ≡ option_and_then (λ call. call) (slice_get calls.old place) }
    ensures after { calls.new ≡ slice_set calls.old place None }
{
    if place >= calls.len() {
        return None;
    }
    calls[place].take()
}

/// Puts a call at a place.
fn put_at(calls: &mut [Option<Box<Cont<Plain>>>], place: usize, call: Box<Cont<Plain>>)
    ensures { calls.new ≡ slice_set calls.old place (Some call) }
{
    if place < calls.len() {
        calls[place] = Some(call);
    }
}

impl SoloSession {
    /// Takes the call of a number out, where there is one.
    pub(crate) fn take(&mut self, number: u32) -> Option<Box<Cont<Plain>>>
        ensures call { result ≡ option_and_then (λ call. call) (slice_get self.old.calls.items number) }
        ensures after { self.new.calls.items ≡ slice_set self.old.calls.items number None }
        ensures stays { self.new ≡ record self.old { calls = self.new.calls } }
    {
        take_at(self.calls.as_mut_slice(), number as usize)
    }

    /// Puts it back.
    pub(crate) fn put(&mut self, number: u32, call: Box<Cont<Plain>>)
        ensures after { self.new.calls.items ≡ slice_set self.old.calls.items number (Some call) }
        ensures stays { self.new ≡ record self.old { calls = self.new.calls } }
    {
        put_at(self.calls.as_mut_slice(), number as usize, call);
    }

    /// The number of the next call that comes in.
    pub(crate) fn next_number(&self) -> u32
        requires { entered_in self.now < 2 ^ 32 }
        ensures { result ≡ entered_in self.now }
    {
        self.calls.len() as u32
    }

    /// A call comes in with the next number.
    pub(crate) fn add(&mut self, call: Box<Cont<Plain>>) -> Result<(), NoMemory>
        ensures ok { OnOk result (self.new.calls.items ≡ self.old.calls.items ++ Some call ∷ []) }
        ensures err { OnErr result (self.new.calls.items ≡ self.old.calls.items) }
        ensures stays { self.new ≡ record self.old { calls = self.new.calls } }
    {
        self.calls.push(Some(call))?;
        Ok(())
    }

    /// The call of this number waits no more.
    pub(crate) fn leave_line(&mut self, number: u32)
        ensures after { self.new.waiting.items ≡ filter (λ other. not (other == number)) self.old.waiting.items }
        ensures stays { self.new ≡ record self.old { waiting = self.new.waiting } }
    {
        self.waiting.retain(|other| *other != number);
    }
}
