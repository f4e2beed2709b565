ghost use Rattle.std.specs.Prelude.{◌≡◌, ◌<◌, ◌≤◌, length, IsTrue, Some};
ghost use Rattle.std.specs.List.{AllByRecursion};
ghost use Rattle.std.specs.Option.{option_copied, option_map};
ghost use Rattle.event_journal.specs.Journal.{copied_bytes};
ghost use Rattle.event_log.specs.LastEntry.{last_entry};
ghost use Rattle.kernel_model.specs.History.{IsLegal};
ghost use Rattle.kernel_model.specs.Turns.{ReadsRam};
ghost use Rattle.kernel_state.specs.Meaning.{booted_of, events_of, kernel_of, free_slots_in, free_pages_in, is_inside, terms_of};
ghost use Rattle.kernel_state.specs.Reads.{ReadsAgree};

use crate::kernel_core::Core;
use crate::terms::Terms;
use event_journal::{Event, Journal};

impl Core {
    /// What becomes of its events, and how much its entries may read.
    pub fn terms(&self) -> Terms
        ensures { result ≡ terms_of self.now }
    {
        self.parts.setup.terms
    }

    #[tactic(auto, using(crate::proofs::Told::is_legal, crate::proofs::Told::few_bytes, crate::proofs::Told::reads_agree, crate::proofs::Told::reads_ram, crate::proofs::Told::kept_so))]
    /// All events so far, of a core that keeps them: a legal history, whose entries have together read at most as many bytes as its
    /// terms allow. Each read has some, all of them in RAM, and those of one entry agree.
    pub fn journal(&self) -> &Journal
        requires keeps { IsTrue (terms_of self.now).keeps }
        ensures events { result.now.events ≡ events_of self.now }
        ensures legal { IsLegal (booted_of self.now) (events_of self.now) }
        ensures few { copied_bytes (events_of self.now) ≤ (terms_of self.now).most }
        ensures agree { AllByRecursion ReadsAgree (events_of self.now) }
        ensures in_ram { AllByRecursion ReadsRam (events_of self.now) }
    {
        match self.parts.journal.journal() {
            Some(journal) => journal,
            None => unreachable!(),
        }
    }

    /// How many events there were.
    pub fn event_count(&self) -> u64
        ensures { result ≡ length (events_of self.now) }
    {
        self.parts.journal.len()
    }

    /// How many bytes the entries have read.
    pub fn copied(&self) -> u64
        ensures { result ≡ copied_bytes (events_of self.now) }
    {
        self.parts.journal.copied()
    }

    /// The last entry of a processor, 0 to 7, if it ever came in.
    pub fn last_entry(&self, cpu: u8) -> Option<&Event>
        requires { cpu < 8 }
        ensures { option_copied result ≡ last_entry cpu (events_of self.now) }
    {
        self.parts.journal.last_entry(cpu)
    }

    #[tactic(auto, using(crate::proofs::Told::free_slots_told))]
    /// How many thread slots are free.
    pub fn free_slots(&self) -> u8
        ensures { option_map free_slots_in (kernel_of self.now) ≡ Some result }
    {
        self.parts.slots.free()
    }

    #[tactic(auto, using(crate::proofs::Told::free_pages_told))]
    /// How many pages no instance has.
    pub fn free_pages(&self) -> u16
        ensures { option_map (free_pages_in (booted_of self.now)) (kernel_of self.now) ≡ Some result }
    {
        self.parts.tables.pool.free()
    }

    #[tactic(auto, using(crate::proofs::Told::inside_told, crate::proofs::Told::absent_told))]
    /// Whether the processor is inside. One that there isn't is not.
    pub fn inside(&self, cpu: u8) -> bool
        ensures { option_map (is_inside cpu) (kernel_of self.now) ≡ Some result }
    {
        match self.parts.processors.get(usize::from(cpu)) {
            Some(processor) => processor.is_inside(),
            None => false,
        }
    }
}
