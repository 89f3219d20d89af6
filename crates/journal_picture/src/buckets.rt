//! The time of a journal in buckets of equal width, at most 1,000, whatever the journal's length.
ghost use Rattle.std.specs.Prelude.{◌≡◌, ◌≤◌, ◌⊎◌, length};

use crate::counts::Counts;
use crate::marks::Marks;
use std::alloc::{AllocError, Global};

/// The greatest number of buckets.
const MOST: usize = 1_000;

/// The least and the greatest of some numbers.
#[derive(Clone, Copy)]
pub(crate) struct Span {
    pub(crate) least: u64,
    pub(crate) greatest: u64,
}

impl Span {
    fn of(number: u64) -> Span
        ensures least { result.least ≡ number }
        ensures greatest { result.greatest ≡ number }
    {
        Span {
            least: number,
            greatest: number,
        }
    }

    /// Returns the least and the greatest of both parts together.
    fn and(self, other: Span) -> Span
        ensures least { (result.least ≤ self.least) × (result.least ≤ other.least) }
        ensures greatest { (self.greatest ≤ result.greatest) × (other.greatest ≤ result.greatest) }
        ensures least_is_one { (result.least ≡ self.least) ⊎ (result.least ≡ other.least) }
        ensures greatest_is_one { (result.greatest ≡ self.greatest)
            ⊎ (result.greatest ≡ other.greatest) }
    {
        Span {
            least: self.least.min(other.least),
            greatest: self.greatest.max(other.greatest),
        }
    }
}

/// The numbers of objects and of borrowers that wait, at one time or over a stretch of time.
#[derive(Clone, Copy)]
pub(crate) struct Levels {
    pub(crate) lent: Span,
    pub(crate) idle: Span,
    pub(crate) reserved: Span,
    pub(crate) lent_or_idle: Span,
    pub(crate) all: Span,
    pub(crate) waiting: Span,
}

impl Levels {
    /// Returns the levels at one time.
    pub(crate) fn of(counts: Counts, waiting: u64) -> Levels {
        let lent_or_idle = counts.lent.saturating_add(counts.idle);
        Levels {
            lent: Span::of(counts.lent),
            idle: Span::of(counts.idle),
            reserved: Span::of(counts.reserved),
            lent_or_idle: Span::of(lent_or_idle),
            all: Span::of(lent_or_idle.saturating_add(counts.reserved)),
            waiting: Span::of(waiting),
        }
    }

    fn and(self, other: Levels) -> Levels {
        Levels {
            lent: self.lent.and(other.lent),
            idle: self.idle.and(other.idle),
            reserved: self.reserved.and(other.reserved),
            lent_or_idle: self.lent_or_idle.and(other.lent_or_idle),
            all: self.all.and(other.all),
            waiting: self.waiting.and(other.waiting),
        }
    }
}

/// A stretch of time: the levels at its beginning and after each of its entries, and the marks of its entries.
#[derive(Clone, Copy)]
pub(crate) struct Bucket {
    pub(crate) levels: Levels,
    pub(crate) marks: Marks,
}

impl Bucket {
    fn and(self, other: Bucket) -> Bucket {
        Bucket {
            levels: self.levels.and(other.levels),
            marks: self.marks.and(other.marks),
        }
    }
}

/// The buckets, one after the other. If a time would need more than 1,000 of them, each two become one.
#[derive(Drop)]
pub(crate) struct Buckets {
    /// The time at which the first one begins.
    first: u64,
    /// The width of each is 2 to this power, in milliseconds.
    doublings: u32,
    list: Vec<Bucket>,
    ghost bounded: { length list.items ≤ 1000 },
}

impl Buckets {
    pub(crate) fn new(alloc: Global) -> Buckets {
        Buckets {
            first: 0,
            doublings: 0,
            list: Vec::new(alloc),
        }
    }

    /// Sets the time at which the first bucket begins.
    pub(crate) fn begin(&mut self, at: u64) {
        self.first = at;
    }

    pub(crate) fn as_slice(&self) -> &[Bucket] {
        self.list.as_slice()
    }

    /// Returns the time at which the first bucket begins.
    pub(crate) fn first(&self) -> u64 {
        self.first
    }

    /// Returns the width of a bucket, in milliseconds.
    pub(crate) fn width(&self) -> u64 {
        1u64.checked_shl(self.doublings).unwrap_or(u64::MAX)
    }

    /// Takes in an entry at a time, with the levels before and after it. Times do not go back.
    pub(crate) fn take(
        &mut self,
        at: u64,
        before: Levels,
        after: Levels,
        marks: Marks,
    ) -> Result<(), AllocError> {
        self.widen_to(at);
        let place = self.place_of(at);
        self.extend_to(place, before)?;
        if let Some(bucket) = self.list.get_mut(place) {
            *bucket = bucket.and(Bucket {
                levels: after,
                marks,
            });
        }
        Ok(())
    }

    /// Returns the number of the bucket that a time is in, from 0.
    fn place_of(&self, at: u64) -> usize {
        let elapsed = at.saturating_sub(self.first);
        elapsed.checked_shr(self.doublings).unwrap_or(0) as usize
    }

    /// Widens the buckets until a time is in one of them.
    fn widen_to(&mut self, at: u64) {
        for _ in 0..64 {
            if self.place_of(at) < MOST {
                return;
            }
            self.join_pairs();
        }
    }

    /// Joins each two buckets to one of twice the width.
    fn join_pairs(&mut self) {
        let count = self.list.len();
        let half = count / 2 + count % 2;
        for place in 0..half {
            let joined = self.joined_at(place.saturating_mul(2));
            if let (Some(bucket), Some(joined)) = (self.list.get_mut(place), joined) {
                *bucket = joined;
            }
        }
        self.list.truncate(half);
        self.doublings = self.doublings.saturating_add(1);
    }

    /// Returns the bucket at a position and the next one, if there is one, together.
    fn joined_at(&self, place: usize) -> Option<Bucket> {
        let left = *self.list.get(place)?;
        match self.list.get(place.saturating_add(1)) {
            Some(right) => Some(left.and(*right)),
            None => Some(left),
        }
    }

    /// Adds buckets without entries, at these levels, up to a position.
    fn extend_to(&mut self, place: usize, levels: Levels) -> Result<(), AllocError> {
        for _ in 0..MOST {
            if self.list.len() > place || self.list.len() >= MOST {
                return Ok(());
            }
            self.list.push(Bucket {
                levels,
                marks: Marks::none(),
            })?;
        }
        Ok(())
    }
}
