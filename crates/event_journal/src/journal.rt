ghost use Rattle.std.specs.Prelude.{◌≡◌, ◌+◌, ◌-◌, ◌^◌, ◌<◌, ◌≤◌, ◌↔◌, [], ◌∷◌, ◌++◌, length, slice_get, option_copied, IsNone, IsTrue, OnOk, OnErr};
ghost use Rattle.event_journal.specs.Event.{copied_by};
ghost use Rattle.event_journal.specs.Journal.{copied_bytes};

use crate::event::Event;
use base::NoMemory;
use std::alloc::Global;
use std::marker::Model;

/// All events so far. Contracts see the list of them, and beside it how many more can be pushed before
/// room has to be reserved.
#[derive(Drop)]
pub struct Journal {
    events: Vec<Event>,
    copied: u64,
}

impl Model for Journal {
    ghost use Rattle.std.specs.Prelude.{◌≡◌, ◌-◌, vec_capacity, vec_len};
    ghost use Rattle.event_journal.specs.Journal.{Contents, copied_bytes};

    ghost Value = { Contents };

    ghost view = { λ journal. record {
      events = journal.events.items;
      spare = vec_capacity journal.events - vec_len journal.events;
    } };

    ghost invariant = { λ journal. journal.copied ≡ copied_bytes journal.events.items };
}

impl Journal {
    /// No events. Takes no memory.
    pub fn new(alloc: Global) -> Journal
        ensures { result.events ≡ [] }
    {
        Journal {
            events: Vec::new(alloc),
            copied: 0,
        }
    }

    /// How many events there are.
    pub fn len(&self) -> u64
        ensures { result ≡ length self.now.events }
    {
        self.events.len() as u64
    }

    /// No event has come yet.
    pub fn is_empty(&self) -> bool
        ensures { IsTrue result ↔ (self.now.events ≡ []) }
    {
        self.events.is_empty()
    }

    /// The event of this number. The first has number 0.
    pub fn get(&self, at: u64) -> Option<&Event>
        ensures event { option_copied result ≡ slice_get self.now.events at }
        ensures none { IsNone result ↔ (length self.now.events ≤ at) }
    {
        self.events.get(at as usize)
    }

    /// The events in their order.
    pub fn as_slice(&self) -> &[Event]
        ensures { result.now ≡ self.now.events }
    {
        self.events.as_slice()
    }

    /// How many bytes all the events have copied out of the normal world's RAM.
    pub fn copied(&self) -> u64
        ensures { result ≡ copied_bytes self.now.events }
    {
        self.copied
    }

    /// Makes room for so many more events. Room that is there already is kept.
    pub fn reserve(&mut self, events: u32) -> Result<(), NoMemory>
        ensures events { self.new.events ≡ self.old.events }
        ensures room { OnOk result (events ≤ self.new.spare) }
        ensures kept { self.old.spare ≤ self.new.spare }
        ensures err { OnErr result (self.new ≡ self.old) }
    {
        self.events.reserve(events as usize)?;
        Ok(())
    }

    /// Writes the event behind the others. Takes no memory, but uses up reserved room.
    pub fn push(&mut self, event: Event)
        requires room { 0 < self.old.spare }
        requires fits { copied_bytes self.old.events + copied_by event < 2 ^ 64 }
        ensures { self.new ≡ record {
          events = self.old.events ++ event ∷ [];
          spare = self.old.spare - 1;
        } }
    {
        self.copied += event.copied();
        self.events.push_reserved(event);
    }
}
