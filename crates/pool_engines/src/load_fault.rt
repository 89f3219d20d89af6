//! Why a load of workers has no report.

use thiserror::Error;

/// Why a load has no report.
#[derive(Clone, Copy, Debug, PartialEq, Eq, Error)]
pub enum LoadFault {
    /// There are no workers, or more than 1,023.
    #[error("pool: wrong number of workers")]
    WorkerCount,
    /// There are no rounds, or more than 1,000,000.
    #[error("pool: wrong number of rounds")]
    RoundCount,
    /// The entry of a critical section did not fit the journal.
    #[error("pool: journal full")]
    JournalFull,
    #[error("pool: out of memory")]
    OutOfMemory,
    /// The system made no thread for a worker.
    #[error("pool: no thread")]
    NoThread,
}
