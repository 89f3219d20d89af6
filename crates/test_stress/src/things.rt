//! The objects, and a factory that fails now and then.
ghost use Rattle.std.specs.Prelude.{◌≡◌, true, false};

use pool_shared::{Clock, Factory};
use rand::RngExt;
use rand_pcg::Pcg32;
use std::sync::atomic::{AtomicU64, Ordering};
use std::thread;

/// One in this number of the factory's calls fails.
const FAILS_OF: u64 = 12;

/// Before one in this number of calls the thread lets others run.
const YIELDS_OF: u64 = 50;

/// An object.
#[derive(Drop)]
pub struct Thing {
    is_awake: bool,
}

/// The work of a factory.
#[derive(Drop)]
pub struct Tally {
    calls: AtomicU64,
    made: AtomicU64,
    destroyed: AtomicU64,
}

impl Tally {
    pub fn new() -> Tally {
        Tally {
            calls: AtomicU64::new(0),
            made: AtomicU64::new(0),
            destroyed: AtomicU64::new(0),
        }
    }

    /// Returns whether all created objects were destroyed, except `rest` of them.
    pub fn leaves(&self, rest: u64) -> bool {
        let made = self.made.load(Ordering::SeqCst);
        self.destroyed.load(Ordering::SeqCst).checked_add(rest) == Some(made)
    }
}

/// A factory whose calls fail at random, each by its number.
#[derive(Drop)]
pub struct Fickle<'a> {
    pub tally: &'a Tally,
    pub seed: u64,
}

impl Fickle<'_> {
    // Returns whether a call fails. Now and then other threads run first.
    fn fails(&self) -> bool {
        let call = self.tally.calls.fetch_add(1, Ordering::SeqCst);
        let mut generator = Pcg32::new(self.seed, call);
        if generator.random_range(0..YIELDS_OF) == 0 {
            thread::yield_now();
        }
        generator.random_range(0..FAILS_OF) == 0
    }
}

impl Factory<Thing, ()> for Fickle<'_> {
    ghost active = { λ v. v.is_awake ≡ true };

    ghost valid = { λ v. v ≡ v };

    ghost passive = { λ v. v.is_awake ≡ false };

    ghost from_make = { λ f. f ≡ f };

    ghost from_activate = { λ f. f ≡ f };

    ghost from_passivate = { λ f. f ≡ f };

    fn make(&self, id: u64) -> Result<Thing, ()> {
        let _ = id;
        if self.fails() {
            return Err(());
        }
        self.tally.made.fetch_add(1, Ordering::SeqCst);
        Ok(Thing { is_awake: false })
    }

    fn activate(&self, value: &mut Thing) -> Result<(), ()> {
        if self.fails() {
            return Err(());
        }
        value.is_awake = true;
        Ok(())
    }

    fn validate(&self, value: &Thing) -> bool {
        let _ = value;
        !self.fails()
    }

    fn passivate(&self, value: &mut Thing) -> Result<(), ()> {
        if self.fails() {
            return Err(());
        }
        value.is_awake = false;
        Ok(())
    }

    fn destroy(&self, value: Thing) {
        drop(value);
        self.tally.destroyed.fetch_add(1, Ordering::SeqCst);
    }
}

/// A clock whose time increases by one millisecond at each reading.
#[derive(Drop)]
pub struct Ticking {
    moment: AtomicU64,
}

impl Ticking {
    pub fn new() -> Ticking {
        Ticking {
            moment: AtomicU64::new(0),
        }
    }
}

impl Clock for Ticking {
    fn now(&self) -> u64 {
        self.moment.fetch_add(1, Ordering::SeqCst)
    }
}
