//! Why a seed has no verdict.

use pool_shared::OpenFault;
use std::alloc::{AllocError, AllocFailed};

/// The error of a seed that has no verdict.
#[derive(Clone, Copy, Debug)]
pub enum SeedError {
    NotOpened,
    /// A call failed with an impossible error.
    Stopped,
    /// After a call that failed for lack of memory, the journal does not have the caller's earlier calls.
    Untold,
    CallerMissing,
    NotJudged,
    /// A call that must succeed found no memory in any try.
    Starved,
    /// An allocation of the opening failed.
    OutOfMemory,
}

impl From<AllocError> for SeedError {
    fn from(_: AllocError) -> SeedError {
        SeedError::OutOfMemory
    }
}

impl<T: Drop> From<AllocFailed<T>> for SeedError {
    fn from(_: AllocFailed<T>) -> SeedError {
        SeedError::OutOfMemory
    }
}

impl From<OpenFault> for SeedError {
    fn from(fault: OpenFault) -> SeedError {
        match fault {
            OpenFault::CallerCount => SeedError::NotOpened,
            OpenFault::OutOfMemory => SeedError::OutOfMemory,
        }
    }
}
