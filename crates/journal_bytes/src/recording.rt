ghost use Rattle.std.specs.Prelude.{◌≡◌, []};
ghost use Rattle.journal_bytes.specs.Recording.{HasNoItem, nothing, journal_so_far};

use event_journal::Journal;
use std::alloc::Global;
use trace_text::Builder;

/// What the records so far tell: a boot and its key, which the reader of traces takes, and the events behind it.
#[derive(Drop)]
pub struct Recording {
    pub header: Builder,
    pub events: Journal,
}

impl Recording {
    /// Before the first of them. Takes no memory.
    pub fn new(alloc: Global) -> Recording
        ensures told { journal_so_far result ≡ nothing }
        ensures header { HasNoItem result }
    {
        Recording {
            header: Builder::new(alloc),
            events: Journal::new(alloc),
        }
    }
}
