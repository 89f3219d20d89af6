//! How a pool works besides its settings: its hooks, how often a call that waits is overtaken, and whether it drops its
//! journal.

use crate::hooks::Hooks;

/// How a pool works besides its settings.
#[derive(Clone, Copy, Debug, PartialEq, Eq)]
pub struct Options {
    pub hooks: Hooks,
    /// How often a call that has waited for `overtake_millis` is overtaken at most; at 0 never.
    pub max_overtakes: u64,
    /// For how long, in milliseconds, a call that waits may be overtaken any number of times before.
    pub overtake_millis: u64,
    /// Whether the pool drops its journal: it forgets the stored entries once they are many beside its objects, or leave
    /// no room for a step.
    pub drops_journal: bool,
}
