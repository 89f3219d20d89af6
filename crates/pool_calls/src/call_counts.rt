//! What a call over several objects has come to.
ghost use Rattle.std.specs.Prelude.{◌≡◌};
ghost use Rattle.pool_calls.specs.Counting.{one_more};

use crate::kind::Kind;
use pool_journal::Answer;

/// The counts of a call. They stay at 2^64 - 1.
#[repr(C)]
#[derive(Clone, Copy)]
pub struct CallCounts {
    /// How many objects a fill parked, an eviction run examined, a removal reclaimed, or a clear or a close took.
    pub objects: u64,
    /// How many places of objects are free again.
    pub freed: u64,
}

impl CallCounts {
    /// Returns the counts after this answer.
    #[inline(always)]
    pub fn with(self, kind: Kind, answer: Answer) -> CallCounts
        ensures { result ≡ one_more kind answer self }
    {
        CallCounts {
            objects: self.objects.saturating_add(u64::from(kind.counts(answer))),
            freed: self
                .freed
                .saturating_add(u64::from(matches!(answer, Answer::Freed))),
        }
    }
}
