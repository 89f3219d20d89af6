//! The pauses of a thread before it sleeps, in turns of a loop: no clock is at hand while a thread waits.

use std::hint::spin_loop;

/// The turns of the first pause. A turn takes some 40 ns on processors of today, and a tenth of that on old ones. Each
/// further pause has twice as many, up to the most.
const FIRST_TURNS: u32 = 12;

/// The turns of a pause at most, which take some 10 µs.
const MOST_TURNS: u32 = 250;

/// The number of pauses before a thread sleeps. They take some 45 µs in all.
const MOST_PAUSES: u32 = 8;

/// The number of calls of `pause` until one returns false, at most.
pub(crate) const CALLS: u32 = MOST_PAUSES + 1;

/// The pauses of one wait.
#[derive(Drop)]
pub(crate) struct Pauses {
    turns: u32,
    left: u32,
}

impl Pauses {
    /// Begins the pauses of a wait.
    pub(crate) fn new() -> Pauses {
        Pauses {
            turns: FIRST_TURNS,
            left: MOST_PAUSES,
        }
    }

    /// Pauses. Returns false, without a pause, if there were as many as a wait may have.
    #[inline(never)]
    pub(crate) fn pause(&mut self) -> bool {
        if self.left == 0 {
            return false;
        }
        for _ in 0..self.turns {
            spin_loop();
        }
        self.left -= 1;
        self.turns = self.turns.saturating_mul(2).min(MOST_TURNS);
        true
    }
}
