ghost use Rattle.std.specs.Prelude.{◌≡◌, ◌+◌, ◌-◌, ◌^◌, ◌<◌, ◌≤◌, [], ◌∷◌, ◌++◌, OnOk, OnErr};
ghost use Rattle.std.specs.Option.{option_copied};
ghost use Rattle.event_journal.specs.Event.{copied_by};
ghost use Rattle.event_journal.specs.Journal.{copied_bytes};
ghost use Rattle.event_log.specs.LastEntry.{last_entry};

use crate::who_entered::{MOST_CPUS, who_entered};
use base::NoMemory;
use event_journal::{Event, Journal};
use std::alloc::Global;
use std::marker::Model;

/// Events that are kept, and beside them the place of each processor's last entry.
#[derive(Drop)]
pub struct Kept {
    journal: Journal,
    /// By the processor's number.
    last: [Option<u64>; MOST_CPUS],
}

impl Model for Kept {
    ghost use Rattle.event_journal.specs.Journal.{Contents};
    ghost use Rattle.event_log.specs.LastEntry.{AreLastPlaces};

    ghost Value = { Contents };

    ghost view = { λ kept. kept.journal };

    ghost invariant = { λ kept. AreLastPlaces kept.last kept.journal.events };
}

impl Kept {
    /// No events. Takes no memory.
    pub fn new(alloc: Global) -> Kept
        ensures { result.events ≡ [] }
    {
        Kept {
            journal: Journal::new(alloc),
            last: [None; MOST_CPUS],
        }
    }

    /// The events as data.
    pub fn journal(&self) -> &Journal
        ensures { result.now ≡ self.now }
    {
        &self.journal
    }

    /// The last entry of a processor, 0 to 7, if it ever came in.
    pub fn last_entry(&self, cpu: u8) -> Option<&Event>
        requires { cpu < 8 }
        ensures { option_copied result ≡ last_entry cpu self.now.events }
    {
        match self.last[usize::from(cpu)] {
            Some(place) => self.journal.get(place),
            None => None,
        }
    }

    /// Makes room for so many more events. Room that is there already is kept.
    pub fn reserve(&mut self, events: u32) -> Result<(), NoMemory>
        ensures events { self.new.events ≡ self.old.events }
        ensures room { OnOk result (events ≤ self.new.spare) }
        ensures kept { self.old.spare ≤ self.new.spare }
        ensures err { OnErr result (self.new ≡ self.old) }
    {
        self.journal.reserve(events)
    }

    /// Writes the event behind the others. Takes no memory, but uses up reserved room.
    #[inline(always)]
    pub fn push(&mut self, event: Event)
        requires room { 0 < self.old.spare }
        requires fits { copied_bytes self.old.events + copied_by event < 2 ^ 64 }
        ensures { self.new ≡ record {
          events = self.old.events ++ event ∷ [];
          spare = self.old.spare - 1;
        } }
    {
        let place = self.journal.len();
        let entered = who_entered(&event);
        self.journal.push(event);
        if let Some(cpu) = entered {
            let at = usize::from(cpu);
            if at < MOST_CPUS {
                self.last[at] = Some(place);
            }
        }
    }
}
