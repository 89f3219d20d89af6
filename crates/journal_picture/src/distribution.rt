//! The distribution of a number of durations, in little memory.
ghost use Rattle.std.specs.Prelude.{◌≡◌, ◌*◌, ◌-◌, ◌≤◌};

use std::alloc::{AllocError, Global};
use std::collections::BTreeMap;

/// Durations, in milliseconds, of which each is counted in a range of durations that grows with it: below 128 ms the
/// range is that duration alone, above it reaches no further than a 64th of the duration.
#[derive(Drop)]
pub(crate) struct Distribution {
    /// The number of durations in each range, by the greatest in it.
    counts: BTreeMap<u64, u64>,
    count: u64,
    longest: u64,
}

impl Distribution {
    pub(crate) fn new(alloc: Global) -> Distribution {
        Distribution {
            counts: BTreeMap::new(alloc),
            count: 0,
            longest: 0,
        }
    }

    pub(crate) fn take(&mut self, duration: u64) -> Result<(), AllocError> {
        let count = self.counts.entry(ceiling_of(duration))?.or_insert(0);
        *count = count.saturating_add(1);
        self.count = self.count.saturating_add(1);
        self.longest = self.longest.max(duration);
        Ok(())
    }

    /// Returns the number of durations.
    pub(crate) fn count(&self) -> u64 {
        self.count
    }

    /// Returns the longest of the durations, or 0 if there is none.
    pub(crate) fn longest(&self) -> u64 {
        self.longest
    }

    /// Returns a duration that `percent` percent of the durations do not exceed, or 0 if there is none. It is at most a
    /// 64th longer than the shortest of which that holds.
    pub(crate) fn quantile(&self, percent: u64) -> u64 {
        let rank = u128::from(self.count) * u128::from(percent.min(100));
        let mut passed: u128 = 0;
        for (ceiling, count) in self.counts.iter() {
            passed = passed.saturating_add(u128::from(*count) * 100);
            if passed >= rank {
                return (*ceiling).min(self.longest);
            }
        }
        self.longest
    }
}

/// Returns the greatest duration in the range of a duration.
fn ceiling_of(duration: u64) -> u64
    ensures above { duration ≤ result }
    ensures near { 64 * (result - duration) ≤ duration }
{
    let mut width: u64 = 1;
    while width <= duration / 128 {
        width *= 2;
    }
    duration.saturating_add(width - 1 - duration % width)
}
