ghost use Rattle.std.specs.Prelude.{◌≡◌};
ghost use Rattle.event_log.specs.LastEntry.{who_entered};

use event_journal::Event;

/// How many processors have their last entries kept: numbers from 0 up to this one.
pub const MOST_CPUS: usize = 8;

/// The processor whose entry the event is, if it is one.
pub fn who_entered(event: &Event) -> Option<u8>
    ensures { result ≡ who_entered event.now }
{
    match event {
        Event::Entry { cpu, .. } => Some(*cpu),
        Event::Exit { .. } => None,
    }
}
