ghost use Rattle.std.specs.Prelude.{◌≡◌, ◌==◌, filter, map};
ghost use Rattle.std.specs.List.{list_any};
ghost use Rattle.native_tas.specs.Table.{drivers};
ghost use Rattle.notif.specs.Desk.{answer_to, called, first_answer, signalled, was_signalled};

use native_tas::Natives;

/// How often a driver was signalled since it was last called.
#[derive(Clone, Copy)]
pub struct DriverCount {
    /// The value of the driver, from 1 to 63.
    pub value: u32,
    /// At most 2^32 - 1, also where it was signalled more often.
    pub count: u32,
}

impl DriverCount {
    /// The driver after a signal of this value.
    fn signalled(self, value: u32) -> DriverCount
        ensures { result ≡ signalled value self }
    {
        if self.value == value {
            DriverCount {
                count: self.count.saturating_add(1),
                ..self
            }
        } else {
            self
        }
    }

    /// What the driver answers to the number of its signals.
    fn answer(self, natives: &Natives) -> u32
        ensures { result ≡ answer_to (drivers natives.now) self }
    {
        let Some(driver) = natives.get_driver(self.value) else {
            return 0;
        };
        driver.answer(self.count)
    }
}

/// Whether a driver of these has the value.
pub(crate) fn counts_driver(counts: &[DriverCount], value: u32) -> bool
    ensures { result ≡ list_any (λ driver. driver.value == value) counts.now }
{
    counts.iter().any(|driver| driver.value == value)
}

/// Counts a signal of the value, where a driver has it.
pub(crate) fn count_signal(counts: &mut [DriverCount], value: u32)
    ensures { counts.new ≡ map (signalled value) counts.old }
{
    for driver in counts.iter_mut() {
        *driver = driver.signalled(value);
    }
}

/// Calls each driver that was signalled, in the order of the list, and gives the first answer that isn't 0, else 0.
pub(crate) fn call_drivers(counts: &[DriverCount], natives: &Natives) -> u32
    ensures { result ≡ first_answer (map (answer_to (drivers natives.now)) (filter was_signalled counts.now)) }
{
    let mut first = 0;
    for driver in counts {
        if driver.count != 0 {
            let answer = driver.answer(natives);
            if first == 0 {
                first = answer;
            }
        }
    }
    first
}

/// Sets each count to 0.
pub(crate) fn forget_signals(counts: &mut [DriverCount])
    ensures { counts.new ≡ map called counts.old }
{
    for driver in counts.iter_mut() {
        driver.count = 0;
    }
}
