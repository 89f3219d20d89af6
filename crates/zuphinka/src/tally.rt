//! The counts of a pool, as C reads them.
ghost use Rattle.std.specs.Prelude.{◌≡◌};
ghost use Rattle.zuphinka.specs.Counting.{tally_of};

use pool_stats::Counts;

/// The counts of a pool, as C reads them.
#[repr(C)]
#[derive(Clone, Copy)]
pub struct Tally {
    /// The entries since the start of the history.
    pub steps: u64,
    /// The idle objects, including those under an idle test.
    pub idle: u64,
    /// The lent objects.
    pub lent: u64,
    /// The present objects that are neither idle nor lent.
    pub reserved: u64,
    /// The objects that the pool asked to make.
    pub created: u64,
    /// The objects that were destroyed, or could not be made.
    pub destroyed: u64,
    /// The idle objects that were to be destroyed by an eviction run.
    pub evicted: u64,
    /// The abandoned objects that lost their places.
    pub reclaimed: u64,
}

impl Tally {
    pub(crate) fn of(counts: Counts) -> Tally
        ensures { result ≡ tally_of counts }
    {
        Tally {
            steps: counts.steps,
            idle: counts.idle,
            lent: counts.lent,
            reserved: counts.reserved,
            created: counts.created,
            destroyed: counts.destroyed,
            evicted: counts.evicted,
            reclaimed: counts.reclaimed,
        }
    }
}
