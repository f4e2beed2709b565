ghost use Rattle.std.specs.Prelude.{◌≡◌, ◌<◌, ◌≤◌, ◌==◌, IfOk};
ghost use Rattle.std.specs.List.{list_any};
ghost use Rattle.native_tas.specs.Driver.{has_driver};
ghost use Rattle.native_tas.specs.Table.{drivers};
ghost use Rattle.notif.specs.Desk.{IsDeskOf, after_bottom_half, after_enable, after_next, after_signal, after_stop};
ghost use Rattle.notif.specs.Desk.{bottom_half_answer, first_noted, new_desk, noted, value_to_note};

use crate::driver_count::{DriverCount, call_drivers, count_signal, counts_driver, forget_signals};
use crate::noted::Noted;
use arrayvec::ArrayVec;
use base::NoMemory;
use native_tas::{MAX_DRIVER_VALUE, Natives};
use std::alloc::Global;
use std::marker::Model;

/// The value that stands for all drivers, `OPTEE_SMC_ASYNC_NOTIF_VALUE_DO_BOTTOM_HALF` of `optee_smc.h`.
pub const DO_BOTTOM_HALF: u32 = 0;

/// How many values there are, 0 among them.
const VALUES: usize = 64;

/// Which values were signalled, and how often each driver. No call after `new` takes memory.
#[derive(Drop)]
pub struct Desk {
    enabled: bool,
    /// The values to note, each once, in the order in which they came.
    pending: ArrayVec<u32, VALUES>,
    /// One for each driver, in rising order of values.
    counts: Vec<DriverCount>,
}

impl Model for Desk {
    ghost use Rattle.notif.specs.Desk.{ArePending, DeskState};

    ghost Value = { DeskState };

    ghost view = { λ d. record { enabled = d.enabled; pending = d.pending.items; counts = d.counts.items } };

    ghost invariant = { λ d. ArePending d.pending.items };
}

impl Desk {
    /// A desk for these drivers, at which signals don't count yet.
    pub fn new(alloc: Global, natives: &Natives) -> Result<Desk, NoMemory>
        ensures { IfOk result (λ desk. desk ≡ new_desk (drivers natives.now)) }
    {
        let mut counts = Vec::new(alloc);
        for value in 1..MAX_DRIVER_VALUE + 1 {
            if is_driver(natives, value) {
                counts.push(DriverCount { value, count: 0 })?;
            }
        }
        Ok(Desk {
            enabled: false,
            pending: ArrayVec::new(),
            counts,
        })
    }

    /// Lets signals count.
    pub fn enable(&mut self)
        ensures { self.new ≡ after_enable self.old }
    {
        self.enabled = true;
    }

    /// Notes a value at the end of those that are pending, unless it is there, and counts it where a driver has it. A
    /// driver's value is noted as 0. Before `enable` nothing changes.
    pub fn signal(&mut self, value: u32)
        requires least { 1 ≤ value }
        requires most { value ≤ 63 }
        ensures { self.new ≡ after_signal self.old value }
    {
        if !self.enabled {
            return;
        }
        let to_note = self.value_to_note(value);
        self.note(to_note);
        count_signal(self.counts.as_mut_slice(), value);
    }

    fn value_to_note(&self, value: u32) -> u32
        ensures { result ≡ value_to_note self.now.counts value }
    {
        if counts_driver(self.counts.as_slice(), value) {
            DO_BOTTOM_HALF
        } else {
            value
        }
    }

    fn note(&mut self, value: u32)
        requires { value < 64 }
        ensures { self.new ≡ record self.old { pending = noted self.old.pending value } }
    {
        if !self.is_pending(value) {
            self.pending.push(value);
        }
    }

    fn is_pending(&self, value: u32) -> bool
        ensures { result ≡ list_any (λ kept. kept == value) self.now.pending }
    {
        self.pending.iter().any(|kept| *kept == value)
    }

    /// Takes the first pending value, and tells whether there are more. None exactly where nothing is pending.
    pub fn next(&mut self) -> Option<Noted>
        ensures noted { result ≡ first_noted self.old.pending }
        ensures after { self.new ≡ after_next self.old }
    {
        let value = self.pending.pop_at(0)?;
        Some(Noted {
            value,
            more: !self.pending.is_empty(),
        })
    }

    /// Calls each driver that was signalled with how often it was, in rising order of values. Gives the first answer that
    /// isn't 0, else 0. The natives are those of `new`, or others whose drivers have the same values.
    pub fn bottom_half(&mut self, natives: &Natives) -> u32
        requires { IsDeskOf (drivers natives.now) self.old }
        ensures answer { result ≡ bottom_half_answer (drivers natives.now) self.old }
        ensures after { self.new ≡ after_bottom_half self.old }
    {
        let answer = call_drivers(self.counts.as_slice(), natives);
        forget_signals(self.counts.as_mut_slice());
        answer
    }

    /// Forgets all values and counts, and lets no signal count until `enable`.
    pub fn stop(&mut self)
        ensures { self.new ≡ after_stop self.old }
    {
        self.enabled = false;
        self.pending.clear();
        forget_signals(self.counts.as_mut_slice());
    }
}

fn is_driver(natives: &Natives, value: u32) -> bool
    ensures { result ≡ has_driver (drivers natives.now) value }
{
    natives.get_driver(value).is_some()
}
