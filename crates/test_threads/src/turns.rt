//! Flags that one thread sets and another waits for, and waits that give up.

use std::sync::atomic::{AtomicBool, AtomicU64, Ordering};
use std::thread;

/// The number of times that a test reads a flag or the counts before it gives up.
pub const TURNS: u32 = 1_000_000;

/// The name of a flag that one caller sets and another waits for.
#[derive(Clone, Copy, Debug)]
pub enum Flag {
    Begun,
    Read,
    Gate,
    /// An object was lent.
    Lent,
    /// A borrow timed out.
    TimedOut,
    /// A borrow has its result.
    Answered,
}

/// The flags of a test, whether a wait at the gate has run out of turns, and the time of the clock.
#[derive(Drop)]
pub struct Flags {
    begun: AtomicBool,
    read: AtomicBool,
    gate: AtomicBool,
    lent: AtomicBool,
    timed_out: AtomicBool,
    answered: AtomicBool,
    ran_out: AtomicBool,
    time: AtomicU64,
}

impl Flags {
    /// Returns flags that are not set, at time 0.
    pub fn new() -> Flags {
        Flags {
            begun: AtomicBool::new(false),
            read: AtomicBool::new(false),
            gate: AtomicBool::new(false),
            lent: AtomicBool::new(false),
            timed_out: AtomicBool::new(false),
            answered: AtomicBool::new(false),
            ran_out: AtomicBool::new(false),
            time: AtomicU64::new(0),
        }
    }

    fn named(&self, flag: Flag) -> &AtomicBool {
        match flag {
            Flag::Begun => &self.begun,
            Flag::Read => &self.read,
            Flag::Gate => &self.gate,
            Flag::Lent => &self.lent,
            Flag::TimedOut => &self.timed_out,
            Flag::Answered => &self.answered,
        }
    }

    pub fn set(&self, flag: Flag) {
        self.named(flag).store(true, Ordering::SeqCst);
    }

    /// Waits until a flag is set. Returns whether it was set within the turns.
    pub fn turn_until_set(&self, flag: Flag) -> bool {
        let flag = self.named(flag);
        for _ in 0..TURNS {
            if flag.load(Ordering::SeqCst) {
                return true;
            }
            thread::yield_now();
        }
        false
    }

    /// Sets the time of the clock (milliseconds).
    pub fn set_time(&self, time: u64) {
        self.time.store(time, Ordering::SeqCst);
    }

    /// Returns the time that was set last, or 0.
    pub fn time(&self) -> u64 {
        self.time.load(Ordering::SeqCst)
    }

    /// Waits until the gate is open or the turns run out, and notes the latter.
    pub fn wait_at_the_gate(&self) {
        if !self.turn_until_set(Flag::Gate) {
            self.ran_out.store(true, Ordering::SeqCst);
        }
    }

    /// Returns whether a wait at the gate has run out of turns.
    pub fn have_run_out(&self) -> bool {
        self.ran_out.load(Ordering::SeqCst)
    }
}
