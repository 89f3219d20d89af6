//! The state of a pool apart from its journal, and the position and time of a step.

use pool_places::Places;
use pool_settings::Settings;
use pool_stats::RemovalTotals;

/// The position in the journal and the time (milliseconds) of a step.
#[derive(Clone, Copy)]
pub struct StepContext {
    pub position: u64,
    pub at: u64,
}

/// The state of the pool apart from its journal.
#[derive(Drop)]
pub struct State<T> {
    pub settings: Settings,
    pub places: Places<T>,
    /// The next id to allocate.
    pub next: u64,
    pub closed: bool,
    /// The position at which the object was parked that the last eviction step examined.
    pub cursor: Option<u64>,
    /// The numbers of objects that were destroyed, evicted and reclaimed.
    pub ended: RemovalTotals,
}
