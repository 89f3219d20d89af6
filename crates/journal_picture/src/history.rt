//! The parts of a journal to draw, object by object: bars, waits and counts.

use crate::counts::Counts;
use pool_journal::Phase;

/// A stretch of time that an object was in one phase. Times are in milliseconds.
#[derive(Clone, Copy)]
pub(crate) struct Bar {
    pub(crate) object: u64,
    pub(crate) phase: Phase,
    /// The caller that moved it to this phase, or none if that was before the first entry.
    pub(crate) caller: Option<u32>,
    pub(crate) from: u64,
    pub(crate) until: u64,
}

/// A stretch of time that a borrower waited.
#[derive(Clone, Copy)]
pub(crate) struct Waiting {
    pub(crate) caller: u32,
    pub(crate) from: u64,
    pub(crate) until: u64,
}

/// The counts of objects from a time on.
#[derive(Clone, Copy)]
pub(crate) struct Sample {
    pub(crate) at: u64,
    pub(crate) counts: Counts,
}

/// The parts of a journal to draw, object by object.
#[derive(Drop)]
pub(crate) struct History {
    /// The number of entries.
    pub(crate) entries: u64,
    /// The position of the first entry among all entries of the pool.
    pub(crate) position: u64,
    /// The times at which the entries begin and end.
    pub(crate) first: u64,
    pub(crate) last: u64,
    /// The bars, in the order of their beginnings.
    pub(crate) bars: Vec<Bar>,
    pub(crate) waits: Vec<Waiting>,
    pub(crate) samples: Vec<Sample>,
    /// The objects, in the order in which they came.
    pub(crate) objects: Vec<u64>,
    /// The callers that waited, in the order of their first waits.
    pub(crate) waiters: Vec<u32>,
}
