//! A gate before the queue of the tickets.
use std::hint::spin_loop;
use std::sync::Wait;
use std::sync::atomic::AtomicU64;
use std::sync::atomic::Ordering::SeqCst;
use std::time::Duration;

/// How often one who waits looks at the gate before a nap.
const LOOKS: u32 = 8;

/// The pauses of the processor from one look to the next, some microseconds together.
const PAUSES: u32 = 64;

/// The first nap, in microseconds. Each is twice as long as the one before it, up to the longest.
const FIRST_NAP: u64 = 64;

/// The longest nap, in microseconds.
const LONGEST_NAP: u64 = 1024;

/// A gate behind which there is one thread at a time. Its word counts how often it was shut and opened, and is even
/// while it is open.
///
/// Who comes while it is open goes in, whoever waits: so who ends a turn and comes again needs no other thread to run
/// first. Who waits leaves the gate to those that come and go, and goes in once it stayed open from one look to the
/// next, or where the look just before or behind a nap finds it open. Nobody is woken: a nap ends by itself.
///
/// The tickets keep the turns apart, and no fact rests on the gate.
#[derive(Drop)]
pub(crate) struct Gate {
    word: AtomicU64,
}

impl Gate {
    pub(crate) fn new() -> Gate {
        Gate {
            word: AtomicU64::new(0),
        }
    }

    /// Waits until the gate is open, goes in, and shuts it.
    pub(crate) fn go_in(&self, rt: &impl Wait) {
        let mut nap = FIRST_NAP;
        for _ in rt.forever() {
            let seen = self.count();
            if self.shut(seen) {
                return;
            }
            let Err(last) = self.look_on(seen) else {
                return;
            };
            self.word
                .park_timeout(rt, low_half(last), Duration::from_micros(nap));
            nap = LONGEST_NAP.min(nap.saturating_mul(2));
        }
        unreachable!()
    }

    /// Opens the gate. Only who is behind it may.
    pub(crate) fn go_out(&self) {
        self.word.fetch_add(1, SeqCst);
    }

    fn count(&self) -> u64 {
        self.word.load(SeqCst)
    }

    // Shuts the gate, if it is open and was so since the count was seen.
    fn shut(&self, seen: u64) -> bool {
        seen % 2 == 0
            && self
                .word
                .compare_exchange(seen, seen.wrapping_add(1), SeqCst, SeqCst)
                .is_ok()
    }

    // Looks on for a while, and shuts the gate where it may. At `Err` it couldn't, with the count that was seen last.
    fn look_on(&self, first: u64) -> Result<(), u64> {
        let mut last = first;
        for _ in 0..LOOKS {
            pause();
            let seen = self.count();
            if seen == last && self.shut(seen) {
                return Ok(());
            }
            last = seen;
        }
        if self.shut(last) { Ok(()) } else { Err(last) }
    }
}

// The half of the word that a nap compares.
fn low_half(word: u64) -> u32 {
    (word & 0xffff_ffff) as u32
}

fn pause() {
    for _ in 0..PAUSES {
        spin_loop();
    }
}
