ghost use Rattle.std.specs.Prelude.{◌≡◌, ◌+◌, ◌-◌, ◌^◌, ◌<◌, ◌≤◌, [], ◌∷◌, ◌++◌, true, false, length, IfOk, OnOk, OnErr, MatchOption};
ghost use Rattle.std.specs.Option.{option_copied};
ghost use Rattle.event_journal.specs.Event.{copied_by};
ghost use Rattle.event_journal.specs.Journal.{copied_bytes};
ghost use Rattle.event_log.specs.LastEntry.{last_entry};

use crate::counted::Counted;
use crate::kept::Kept;
use base::NoMemory;
use event_journal::{Event, Journal};
use std::alloc::Global;
use std::marker::Model;

/// What becomes of events.
#[derive(Drop)]
pub enum Form {
    Kept(Kept),
    Counted(Counted),
}

/// All events so far, kept or counted. Contracts see the list of them in both cases, how many more can be pushed before
/// room has to be reserved, and whether they are kept.
#[derive(Drop)]
pub struct Log {
    form: Form,
}

impl Model for Log {
    ghost use Rattle.event_log.specs.Log.{Contents, contents_of};

    ghost Value = { Contents };

    ghost view = { λ log. contents_of log.form };
}

impl Log {
    /// No events. Those that come are kept. Takes no memory.
    pub fn keeping(alloc: Global) -> Log
        ensures events { result.events ≡ [] }
        ensures keeps { result.keeps ≡ true }
    {
        Log {
            form: Form::Kept(Kept::new(alloc)),
        }
    }

    /// No events. Those that come are counted. No later call takes memory, but for the events that are pushed.
    pub fn counting(alloc: Global) -> Result<Log, NoMemory>
        ensures events { IfOk result (λ log. log.events ≡ []) }
        ensures keeps { IfOk result (λ log. log.keeps ≡ false) }
    {
        Ok(Log {
            form: Form::Counted(Counted::new(alloc)?),
        })
    }

    /// The events as data, where they are kept.
    pub fn journal(&self) -> Option<&Journal>
        ensures { MatchOption result (self.now.keeps ≡ false)
            (λ journal. (self.now.keeps ≡ true) × (journal.now.events ≡ self.now.events)) }
    {
        match &self.form {
            Form::Kept(kept) => Some(kept.journal()),
            Form::Counted(_) => None,
        }
    }

    /// How many events there were.
    pub fn len(&self) -> u64
        ensures { result ≡ length self.now.events }
    {
        match &self.form {
            Form::Kept(kept) => kept.journal().len(),
            Form::Counted(counted) => counted.len(),
        }
    }

    /// How many bytes all the events have copied out of the normal world's RAM.
    pub fn copied(&self) -> u64
        ensures { result ≡ copied_bytes self.now.events }
    {
        match &self.form {
            Form::Kept(kept) => kept.journal().copied(),
            Form::Counted(counted) => counted.copied(),
        }
    }

    /// The last entry of a processor, 0 to 7, if it ever came in.
    pub fn last_entry(&self, cpu: u8) -> Option<&Event>
        requires { cpu < 8 }
        ensures { option_copied result ≡ last_entry cpu self.now.events }
    {
        match &self.form {
            Form::Kept(kept) => kept.last_entry(cpu),
            Form::Counted(counted) => counted.last_entry(cpu),
        }
    }

    /// Makes room for so many more events. Room that is there already is kept.
    pub fn reserve(&mut self, events: u32) -> Result<(), NoMemory>
        ensures events { self.new.events ≡ self.old.events }
        ensures keeps { self.new.keeps ≡ self.old.keeps }
        ensures room { OnOk result (events ≤ self.new.spare) }
        ensures kept { self.old.spare ≤ self.new.spare }
        ensures err { OnErr result (self.new ≡ self.old) }
    {
        match &mut self.form {
            Form::Kept(kept) => kept.reserve(events),
            Form::Counted(counted) => counted.reserve(events),
        }
    }

    /// The event stands behind the others. Takes no memory, but uses up reserved room.
    #[inline(always)]
    pub fn push(&mut self, event: Event)
        requires room { 0 < self.old.spare }
        requires fits { copied_bytes self.old.events + copied_by event < 2 ^ 64 }
        ensures { self.new ≡ record self.old {
          events = self.old.events ++ event ∷ [];
          spare = self.old.spare - 1;
        } }
    {
        match &mut self.form {
            Form::Kept(kept) => kept.push(event),
            Form::Counted(counted) => counted.push(event),
        }
    }
}
