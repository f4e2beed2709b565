ghost use Rattle.std.specs.Prelude.{◌≡◌, ◌<◌, [], ◌∷◌, ◌++◌, IfOk};
ghost use Rattle.std.specs.Option.{option_copied};
ghost use Rattle.event_log.specs.LastEntry.{last_entry};

use crate::who_entered::{MOST_CPUS, who_entered};
use base::NoMemory;
use event_journal::Event;
use past::Past;
use std::alloc::Global;
use std::marker::Model;

/// Events of which the last entry of each processor is kept, and no other. Contracts see the list of all.
#[derive(Drop)]
pub struct LastEntries {
    past: Past<Event>,
    /// By the processor's number.
    by_cpu: Vec<Option<Event>>,
}

impl Model for LastEntries {
    ghost use Rattle.std.specs.Prelude.{List};
    ghost use Rattle.event_journal.specs.declared.event.Event.{Event};
    ghost use Rattle.event_log.specs.LastEntry.{AreLastEntries};

    ghost Value = { List Event };

    ghost view = { λ last. last.past.items };

    ghost invariant = { λ last. AreLastEntries last.by_cpu.items last.past.items };
}

impl LastEntries {
    /// No event has come.
    pub fn new(alloc: Global) -> Result<LastEntries, NoMemory>
        ensures { IfOk result (λ last. last ≡ []) }
    {
        let none = [None, None, None, None, None, None, None, None];
        Ok(LastEntries {
            past: Past::new(),
            by_cpu: Vec::from_array(alloc, none)?,
        })
    }

    /// An event more, which is kept where it is an entry, in place of the processor's earlier one. Takes no memory.
    #[inline(always)]
    pub fn push(&mut self, event: Event)
        ensures { self.new ≡ self.old ++ event ∷ [] }
    {
        let entered = who_entered(&event);
        self.past = self.past.with(&event);
        if let Some(cpu) = entered {
            let at = usize::from(cpu);
            if at < MOST_CPUS {
                self.by_cpu[at] = Some(event);
            }
        }
    }

    /// The last entry of a processor, 0 to 7, if it ever came in.
    pub fn of(&self, cpu: u8) -> Option<&Event>
        requires { cpu < 8 }
        ensures { option_copied result ≡ last_entry cpu self.now }
    {
        self.by_cpu[usize::from(cpu)].as_ref()
    }
}
