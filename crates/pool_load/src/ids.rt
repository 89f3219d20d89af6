//! Objects whose values are their ids, and a clock that counts its readings.

use pool_shared::{Clock, Factory, SharedPool};
use std::convert::Infallible;
use std::sync::atomic::{AtomicU64, Ordering};

/// A pool of objects whose values are their ids.
pub(crate) type IdPool<B> = SharedPool<u64, Infallible, Ids, Ticks, B>;

/// A factory that makes the id of an object its value, and never fails.
#[derive(Drop)]
pub(crate) struct Ids;

impl Factory<u64, Infallible> for Ids {
    ghost use Rattle.std.specs.Prelude.{⊤};

    ghost active = { λ value. ⊤ };

    ghost valid = { λ value. ⊤ };

    ghost passive = { λ value. ⊤ };

    ghost from_make = { λ fault. ⊥ };

    ghost from_activate = { λ fault. ⊥ };

    ghost from_passivate = { λ fault. ⊥ };

    fn make(&self, id: u64) -> Result<u64, Infallible> {
        Ok(id)
    }

    fn activate(&self, _value: &mut u64) -> Result<(), Infallible> {
        Ok(())
    }

    fn validate(&self, _value: &u64) -> bool {
        true
    }

    fn passivate(&self, _value: &mut u64) -> Result<(), Infallible> {
        Ok(())
    }

    fn destroy(&self, _value: u64) {}
}

/// A clock that returns the number of its earlier readings.
#[derive(Drop)]
pub(crate) struct Ticks {
    readings: AtomicU64,
}

impl Ticks {
    pub(crate) fn new() -> Ticks {
        Ticks {
            readings: AtomicU64::new(0),
        }
    }
}

impl Clock for Ticks {
    fn now(&self) -> u64 {
        self.readings.fetch_add(1, Ordering::SeqCst)
    }
}
