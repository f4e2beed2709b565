//! Whether an event that was done again is that of the journal.
ghost use Rattle.std.specs.Prelude.{◌≡◌, ◌↔◌, ℕ, List, [], ◌∷◌, ◌++◌, IsTrue};
ghost use Rattle.event_journal.specs.declared.event.Event.{Event as AnyEvent};
ghost use Rattle.event_journal.specs.declared.event.Event.TheVariants.{Exit};
ghost use Rattle.smc_abi.specs.declared.regs.Regs.{Regs as AnyRegs};

use event_journal::Event;
use ns_ram::Read;
use smc_abi::Regs;

/// The registers are the same.
pub(crate) fn are_same_regs(told: Regs, regs: &Regs) -> bool
    ensures { IsTrue result ↔ (told.a ≡ regs.now.a) }
{
    told.a == regs.a
}

/// Both reads are the same.
fn is_same_read(one: &Read, other: &Read) -> bool
    ensures { IsTrue result ↔ (one.now ≡ other.now) }
{
    if one.addr != other.addr {
        return false;
    }
    one.bytes.as_slice() == other.bytes.as_slice()
}

/// Both lists of reads are the same.
pub(crate) fn are_same_reads(one: &[Read], other: &[Read]) -> bool
    ensures { IsTrue result ↔ (one.now ≡ other.now) }
{
    if one.len() != other.len() {
        return false;
    }
    for (place, read) in one.iter().enumerate() {
        if !is_same_read(read, &other[place]) {
            return false;
        }
    }
    true
}

/// An exit has left these registers.
fn has_left(event: &Event, regs: &Regs) -> bool
    ensures { (cpu : ℕ) (told : AnyRegs) → event.now ≡ Exit cpu told → (IsTrue result ↔ (told.a ≡ regs.now.a)) }
{
    match event {
        Event::Exit { regs: told, .. } => are_same_regs(*told, regs),
        Event::Entry { .. } => false,
    }
}

/// The last event, an exit, has these registers.
pub fn last_has_left(events: &[Event], regs: &Regs) -> bool
    ensures { (before : List AnyEvent) (cpu : ℕ) (told : AnyRegs)
        → events.now ≡ before ++ Exit cpu told ∷ [] → (IsTrue result ↔ (told.a ≡ regs.now.a)) }
{
    match events.last() {
        Some(last) => has_left(last, regs),
        None => false,
    }
}
