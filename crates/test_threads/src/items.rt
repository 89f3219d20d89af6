//! The objects of the tests, the factory that makes them, and the record of its work.
ghost use Rattle.std.specs.Prelude.{◌≡◌, true, false};

use crate::turns::Flags;
use pool_shared::Factory;
use std::alloc::Global;
use std::process::Abort;
use std::sync::atomic::{AtomicU64, Ordering};

/// The error of a make.
pub const NOT_MADE: u8 = 7;

/// The error of an activation.
pub const NOT_ACTIVATED: u8 = 8;

/// The error of a passivation.
pub const NOT_PASSIVATED: u8 = 9;

/// An object of a test.
#[derive(Drop)]
pub struct Item {
    pub id: u64,
    pub awake: bool,
}

/// The calls of a factory that can fail, tests among them.
#[derive(Clone, Copy, Debug, PartialEq, Eq)]
pub enum Call {
    Make,
    Activate,
    Validate,
    Passivate,
}

/// The calls that fail.
#[derive(Clone, Copy, Debug)]
pub enum Failing {
    Never,
    /// All of one kind.
    All(Call),
    /// The one with this number, of whatever kind, counted from 1.
    Nth(u64),
}

/// The work of a factory: the number of its calls that could fail, and how often each object was made and destroyed.
#[derive(Drop)]
pub struct Record {
    calls: AtomicU64,
    rows: Vec<Row>,
}

/// How often an object was made and destroyed.
#[derive(Drop)]
struct Row {
    made: AtomicU64,
    destroyed: AtomicU64,
}

impl Record {
    /// Returns a record of the objects with ids below `ids`.
    pub fn new(rt: &impl Abort, alloc: Global, ids: usize) -> Record {
        let mut rows = Vec::new(alloc);
        for _ in 0..ids {
            rows.push(Row {
                made: AtomicU64::new(0),
                destroyed: AtomicU64::new(0),
            })
            .expect(rt, "a row");
        }
        Record {
            calls: AtomicU64::new(0),
            rows,
        }
    }

    /// Returns the number of calls so far that can fail.
    pub fn calls(&self) -> u64 {
        self.calls.load(Ordering::SeqCst)
    }

    /// Returns whether each object was made at most once, and destroyed as often as it was made.
    pub fn is_even(&self) -> bool {
        self.rows.iter().all(|row| {
            let made = row.made.load(Ordering::SeqCst);
            made <= 1 && row.destroyed.load(Ordering::SeqCst) == made
        })
    }

    fn note_made(&self, id: u64) {
        if let Some(row) = self.rows.get(id as usize) {
            row.made.fetch_add(1, Ordering::SeqCst);
        }
    }

    fn note_destroyed(&self, id: u64) {
        if let Some(row) = self.rows.get(id as usize) {
            row.destroyed.fetch_add(1, Ordering::SeqCst);
        }
    }
}

/// The work during which a factory waits at the gate.
#[derive(Clone, Copy)]
pub enum Waiting<'a> {
    Nowhere,
    /// While it makes object 0.
    Making(&'a Flags),
    /// While it tests an object.
    Testing(&'a Flags),
}

/// A factory that fails in the given calls, and keeps a record.
#[derive(Drop)]
pub struct Items<'a> {
    pub record: &'a Record,
    pub failing: Failing,
    pub waiting: Waiting<'a>,
}

impl Items<'_> {
    fn waits_to_make(&self, id: u64) {
        match self.waiting {
            Waiting::Making(flags) if id == 0 => flags.wait_at_the_gate(),
            _ => {}
        }
    }

    fn waits_to_test(&self) {
        if let Waiting::Testing(flags) = self.waiting {
            flags.wait_at_the_gate();
        }
    }

    // Whether this call fails.
    fn fails(&self, call: Call) -> bool {
        let before = self.record.calls.fetch_add(1, Ordering::SeqCst);
        match self.failing {
            Failing::Never => false,
            Failing::All(kind) => kind == call,
            Failing::Nth(number) => before.wrapping_add(1) == number,
        }
    }
}

impl Factory<Item, u8> for Items<'_> {
    ghost active = { λ v. v.awake ≡ true };

    ghost valid = { λ v. v.id ≡ v.id };

    ghost passive = { λ v. v.awake ≡ false };

    ghost from_make = { λ f. f ≡ 7 };

    ghost from_activate = { λ f. f ≡ 8 };

    ghost from_passivate = { λ f. f ≡ 9 };

    fn make(&self, id: u64) -> Result<Item, u8> {
        self.waits_to_make(id);
        if self.fails(Call::Make) {
            return Err(NOT_MADE);
        }
        self.record.note_made(id);
        Ok(Item { id, awake: false })
    }

    fn activate(&self, value: &mut Item) -> Result<(), u8> {
        if self.fails(Call::Activate) {
            return Err(NOT_ACTIVATED);
        }
        value.awake = true;
        Ok(())
    }

    fn validate(&self, value: &Item) -> bool {
        let _ = value;
        self.waits_to_test();
        !self.fails(Call::Validate)
    }

    fn passivate(&self, value: &mut Item) -> Result<(), u8> {
        if self.fails(Call::Passivate) {
            return Err(NOT_PASSIVATED);
        }
        value.awake = false;
        Ok(())
    }

    fn destroy(&self, value: Item) {
        self.record.note_destroyed(value.id);
    }
}
