ghost use Rattle.std.specs.Prelude.{◌≡◌, ◌^◌, ◌<◌};
ghost use Rattle.event_journal.specs.Event.{copied_by};

use ns_ram::Reads;
use smc_abi::Regs;

/// A processor comes into the core, or goes back.
#[derive(Drop)]
pub enum Event {
    /// The processor comes in with these registers, is granted so many steps, and has read this of its RAM.
    Entry {
        cpu: u8,
        regs: Regs,
        steps: u32,
        reads: Reads,
    },
    /// The processor goes back with these registers.
    Exit {
        cpu: u8,
        regs: Regs,
    },
}

impl Event {
    /// How many bytes the event copied out of the normal world's RAM.
    pub fn copied(&self) -> u64
        requires { copied_by self.now < 2 ^ 64 }
        ensures { result ≡ copied_by self.now }
    {
        match self {
            Event::Entry { reads, .. } => reads.total_bytes(),
            Event::Exit { .. } => 0,
        }
    }
}
