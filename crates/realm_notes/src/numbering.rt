//! The numbers of a realm's calls.
ghost use Rattle.std.specs.Prelude.{◌≡◌, ◌+◌, ◌^◌, ◌<◌, [], Some};
ghost use Rattle.base.specs.NumberMap.{get};
ghost use Rattle.realm_notes.specs.Numbers.{AreNumbers, number_at, without_slot};
ghost use Rattle.own_model.specs.Own as own;

/// The most slots that a core may have.
const MOST_SLOTS: usize = 16;

/// The numbers of a realm's calls, by the slots that they are in.
#[derive(Drop)]
pub(crate) struct Numbering {
    /// How many have come in: the number of the next one.
    pub(crate) entered: u32,
    /// Those of the calls that are in slots.
    pub(crate) in_slots: [Option<u32>; MOST_SLOTS],
    /// Those of the calls that are woken, by the slots of the calls that wake them.
    pub(crate) wakes: [Option<u32>; MOST_SLOTS],
}

/// The number at a slot, if there is one.
fn number_at(numbers: &[Option<u32>], slot: u32) -> Option<u32>
    ensures { result ≡ number_at numbers.now slot }
{
    match numbers.get(slot as usize) {
        Some(number) => *number,
        None => None,
    }
}

impl Numbering {
    /// No call has come in.
    pub(crate) fn new() -> Numbering
        ensures { AreNumbers result (record { entered = 0; in_slots = []; wakes = [] }) }
    {
        Numbering {
            entered: 0,
            in_slots: [None; MOST_SLOTS],
            wakes: [None; MOST_SLOTS],
        }
    }

    /// The number of the call in this slot, if it is one of the realm.
    pub(crate) fn in_slot(&self, slot: u32) -> Option<u32>
        ensures { (numbers : own.Numbering) → AreNumbers self.now numbers → result ≡ get numbers.in_slots slot }
    {
        number_at(&self.in_slots, slot)
    }

    /// The number of the call that the call in this slot wakes, if that was fixed.
    fn fixed_wake(&self, slot: u32) -> Option<u32>
        ensures { (numbers : own.Numbering) → AreNumbers self.now numbers → result ≡ get numbers.wakes slot }
    {
        number_at(&self.wakes, slot)
    }

    /// The number of the call that the call in this slot wakes, where it wakes that of the other slot: the one that was kept, or
    /// else that of the call in the other slot now.
    pub(crate) fn wake_kept(&self, slot: u8, wake: Option<u32>) -> Option<u32>
        ensures { (numbers : own.Numbering) → AreNumbers self.now numbers → result ≡ own.wake_kept numbers slot wake }
    {
        let woken = wake?;
        match self.fixed_wake(u32::from(slot)) {
            Some(number) => Some(number),
            None => self.in_slot(woken),
        }
    }

    /// A call comes into a slot, and gets the next number.
    pub(crate) fn next_in(&mut self, slot: u8)
        requires slot { slot < 16 }
        requires few { self.old.entered + 1 < 2 ^ 32 }
        ensures { (numbers : own.Numbering) → AreNumbers self.old numbers
            → AreNumbers self.new (own.next_in numbers slot) }
    {
        let number = self.entered;
        self.entered = number + 1;
        self.in_slots[usize::from(slot)] = Some(number);
    }

    /// Whom the call of the slot wakes is kept.
    pub(crate) fn with_wake(&mut self, slot: u8, woken: Option<u32>)
        requires { slot < 16 }
        ensures { (numbers : own.Numbering) → AreNumbers self.old numbers
            → AreNumbers self.new (own.with_wake numbers slot woken) }
    {
        if woken.is_some() {
            self.wakes[usize::from(slot)] = woken;
        }
    }

    /// The slot holds no call of the realm any more.
    pub(crate) fn forget(&mut self, slot: u8)
        requires { slot < 16 }
        ensures { (numbers : own.Numbering) → AreNumbers self.old numbers
            → AreNumbers self.new (without_slot numbers slot) }
    {
        self.in_slots[usize::from(slot)] = None;
        self.wakes[usize::from(slot)] = None;
    }
}
