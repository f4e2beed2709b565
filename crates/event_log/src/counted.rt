ghost use Rattle.std.specs.Prelude.{◌≡◌, ◌+◌, ◌-◌, ◌^◌, ◌<◌, ◌≤◌, [], ◌∷◌, ◌++◌, length, IfOk, OnOk};
ghost use Rattle.std.specs.Option.{option_copied};
ghost use Rattle.event_journal.specs.Event.{copied_by};
ghost use Rattle.event_journal.specs.Journal.{copied_bytes};
ghost use Rattle.event_log.specs.LastEntry.{last_entry};

use crate::last_entries::LastEntries;
use base::NoMemory;
use event_journal::Event;
use std::alloc::Global;
use std::marker::Model;

/// Events that are counted and let go of. Contracts see all of them, and beside them how many more can be counted.
#[derive(Drop)]
pub struct Counted {
    last: LastEntries,
    len: u64,
    copied: u64,
}

impl Model for Counted {
    ghost use Rattle.std.specs.Prelude.{◌≡◌, ◌-◌, length};
    ghost use Rattle.event_journal.specs.Journal.{Contents, copied_bytes};

    ghost Value = { Contents };

    ghost view = { λ counted. record {
      events = counted.last;
      spare = 18446744073709551615 - counted.len;
    } };

    ghost invariant = { λ counted. (counted.len ≡ length counted.last) × (counted.copied ≡ copied_bytes counted.last) };
}

impl Counted {
    /// No events.
    pub fn new(alloc: Global) -> Result<Counted, NoMemory>
        ensures { IfOk result (λ counted. counted.events ≡ []) }
    {
        Ok(Counted {
            last: LastEntries::new(alloc)?,
            len: 0,
            copied: 0,
        })
    }

    /// How many events there were.
    pub fn len(&self) -> u64
        ensures { result ≡ length self.now.events }
    {
        self.len
    }

    /// How many bytes all the events have copied out of the normal world's RAM.
    pub fn copied(&self) -> u64
        ensures { result ≡ copied_bytes self.now.events }
    {
        self.copied
    }

    /// The last entry of a processor, 0 to 7, if it ever came in.
    pub fn last_entry(&self, cpu: u8) -> Option<&Event>
        requires { cpu < 8 }
        ensures { option_copied result ≡ last_entry cpu self.now.events }
    {
        self.last.of(cpu)
    }

    /// Whether so many more events can be counted.
    pub fn reserve(&self, events: u32) -> Result<(), NoMemory>
        ensures { OnOk result (events ≤ self.now.spare) }
    {
        if u64::MAX - self.len < u64::from(events) {
            return Err(NoMemory);
        }
        Ok(())
    }

    /// Counts the event. Takes no memory.
    #[inline(always)]
    pub fn push(&mut self, event: Event)
        requires room { 0 < self.old.spare }
        requires fits { copied_bytes self.old.events + copied_by event < 2 ^ 64 }
        ensures { self.new ≡ record {
          events = self.old.events ++ event ∷ [];
          spare = self.old.spare - 1;
        } }
    {
        self.copied += event.copied();
        self.len += 1;
        self.last.push(event);
    }
}
