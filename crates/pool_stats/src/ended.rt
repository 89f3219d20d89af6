//! The totals of objects that were destroyed, evicted and reclaimed, which each step updates.

use crate::counting::{is_evicting, is_freeing, is_reclaiming};
use pool_journal::{Answer, Input};

/// The numbers of objects that were destroyed, evicted and reclaimed in a journal.
#[derive(Clone, Copy, Debug, PartialEq, Eq)]
pub struct RemovalTotals {
    /// The number of places that were freed after the object was destroyed or could not be made.
    pub destroyed: u64,
    /// The number of idle objects that an eviction run was to destroy, for their idle time or for a failed test.
    pub evicted: u64,
    /// The number of abandoned objects that were reclaimed.
    pub reclaimed: u64,
}

impl RemovalTotals {
    ghost use Rattle.std.specs.Prelude.{◌≡◌, []};
    ghost use Rattle.pool_stats.specs.Ended.{ended_of, ended_after, MayGrow};

    /// Returns the numbers before the first entry: all are 0.
    pub fn none() -> RemovalTotals
        ensures { result ≡ ended_of [] }
    {
        RemovalTotals {
            destroyed: 0,
            evicted: 0,
            reclaimed: 0,
        }
    }

    /// Returns the numbers after one more entry, with this input and this answer.
    pub fn after(self, input: Input, answer: Answer) -> RemovalTotals
        requires { MayGrow self }
        ensures { result ≡ ended_after answer input self }
    {
        RemovalTotals {
            destroyed: self.destroyed + u64::from(is_freeing(answer)),
            evicted: self.evicted + u64::from(is_evicting(answer, input)),
            reclaimed: self.reclaimed + u64::from(is_reclaiming(answer)),
        }
    }
}
