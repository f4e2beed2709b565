use ports::Pace;
use std::sync::atomic::{AtomicBool, AtomicU32, Ordering};
use std::thread;

/// How often a processor looks whether the other has come, before it goes on without it.
const MOST_LOOKS: u32 = 10_000_000;

/// How often the pace was called for each of a processor's three calls, and for any other number.
#[derive(Drop)]
pub struct Counts {
    calls: [AtomicU32; 3],
    others: AtomicU32,
}

impl Counts {
    fn new() -> Counts {
        Counts {
            calls: [AtomicU32::new(0), AtomicU32::new(0), AtomicU32::new(0)],
            others: AtomicU32::new(0),
        }
    }

    /// The count of the call of this number, counted from 1.
    fn of(&self, n: u32) -> &AtomicU32 {
        match n {
            1 => &self.calls[0],
            2 => &self.calls[1],
            3 => &self.calls[2],
            _ => &self.others,
        }
    }

    /// How often the pace was called for the call of this number; for 0, for those of any other number than 1 to 3.
    pub fn count(&self, n: u32) -> u32 {
        self.of(n).load(Ordering::SeqCst)
    }
}

/// Holds each of two processors back until the other has come so far: in its first call until the other is in its first,
/// and processor 0 in its second until processor 1 is in its third. Counts its calls.
#[derive(Drop)]
pub struct Meeting {
    zero_is_in_first: AtomicBool,
    one_is_in_first: AtomicBool,
    one_is_in_third: AtomicBool,
    /// A processor went on without the other.
    failed: AtomicBool,
    zero: Counts,
    /// Those of processor 1, and of any further one.
    one: Counts,
}

impl Meeting {
    /// Nobody has come.
    pub fn new() -> Meeting {
        Meeting {
            zero_is_in_first: AtomicBool::new(false),
            one_is_in_first: AtomicBool::new(false),
            one_is_in_third: AtomicBool::new(false),
            failed: AtomicBool::new(false),
            zero: Counts::new(),
            one: Counts::new(),
        }
    }

    /// Whether each processor came to where the other waits for it, and none went on without the other.
    pub fn has_met(&self) -> bool {
        self.zero_is_in_first.load(Ordering::SeqCst)
            && self.one_is_in_first.load(Ordering::SeqCst)
            && self.one_is_in_third.load(Ordering::SeqCst)
            && !self.failed.load(Ordering::SeqCst)
    }

    /// How often it was called for processor 0, or for any other one.
    pub fn counts(&self, cpu: u8) -> &Counts {
        match cpu {
            0 => &self.zero,
            _ => &self.one,
        }
    }

    /// Waits until the other processor has come here.
    fn wait_for(&self, come: &AtomicBool) {
        for _ in 0..MOST_LOOKS {
            if come.load(Ordering::SeqCst) {
                return;
            }
            thread::yield_now();
        }
        self.failed.store(true, Ordering::SeqCst);
    }
}

impl Pace for Meeting {
    fn between(&self, cpu: u8, n: u32) {
        self.counts(cpu).of(n).fetch_add(1, Ordering::SeqCst);
        match (cpu, n) {
            (0, 1) => {
                self.zero_is_in_first.store(true, Ordering::SeqCst);
                self.wait_for(&self.one_is_in_first);
            }
            (1, 1) => {
                self.one_is_in_first.store(true, Ordering::SeqCst);
                self.wait_for(&self.zero_is_in_first);
            }
            (0, 2) => self.wait_for(&self.one_is_in_third),
            (1, 3) => self.one_is_in_third.store(true, Ordering::SeqCst),
            _ => {}
        }
    }
}
