//! What is true of a pool besides its counts, as C reads it.

/// What is true of a pool besides its counts, as C reads it.
#[repr(C)]
#[derive(Clone, Copy)]
pub struct PoolState {
    /// The number of calls that wait.
    pub waiting: u64,
    /// The number of calls in progress, including those that wait.
    pub running: u64,
    /// Whether the pool is closed.
    pub is_closed: bool,
}
