//! The objects, a factory that never fails, and a clock that is set by hand.
ghost use Rattle.std.specs.Prelude.{◌≡◌, true, false};

use pool_shared::{Clock, Factory};
use std::sync::atomic::{AtomicU64, Ordering};

/// An object.
#[derive(Drop)]
pub struct Thing {
    is_awake: bool,
}

/// A factory that never fails, and allocates nothing.
#[derive(Drop)]
pub struct Things;

impl Factory<Thing, ()> for Things {
    ghost active = { λ v. v.is_awake ≡ true };

    ghost valid = { λ v. v ≡ v };

    ghost passive = { λ v. v.is_awake ≡ false };

    ghost from_make = { λ f. f ≡ f };

    ghost from_activate = { λ f. f ≡ f };

    ghost from_passivate = { λ f. f ≡ f };

    fn make(&self, id: u64) -> Result<Thing, ()> {
        let _ = id;
        Ok(Thing { is_awake: false })
    }

    fn activate(&self, value: &mut Thing) -> Result<(), ()> {
        value.is_awake = true;
        Ok(())
    }

    fn validate(&self, value: &Thing) -> bool {
        let _ = value;
        true
    }

    fn passivate(&self, value: &mut Thing) -> Result<(), ()> {
        value.is_awake = false;
        Ok(())
    }

    fn destroy(&self, value: Thing) {
        drop(value);
    }
}

/// A clock that returns the time that it is set to.
#[derive(Drop)]
pub struct Hands<'a> {
    pub moment: &'a AtomicU64,
}

impl Clock for Hands<'_> {
    fn now(&self) -> u64 {
        self.moment.load(Ordering::SeqCst)
    }
}
