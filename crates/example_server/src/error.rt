//! The errors that end the day of the servers early, each with its cause.

use crate::connections::Unreachable;
use pool_engines::EngineFault;
use pool_settings::SettingsFault;
use pool_shared::{AddFault, BorrowFault, FinishFault, Lent, OpenFault, PoolFault, ReturnFault};
use std::alloc::{AllocError, AllocFailed};
use std::io;
use thiserror::Error;

/// An error that ends the day early, with its cause.
#[derive(Debug, Drop, Error)]
pub enum DayError {
    #[error("{0}")]
    Settings(#[from] SettingsFault),
    #[error("the pool was not opened: {0}")]
    NotOpened(#[from] OpenFault),
    #[error("no connection was borrowed: {0}")]
    NotBorrowed(#[from] BorrowFault<Unreachable>),
    #[error("a connection was not taken back: {0}")]
    NotTakenBack(ReturnFault),
    #[error("the pool was not maintained: {0}")]
    NotMaintained(#[from] AddFault<Unreachable>),
    #[error("the pool was not closed: {0}")]
    NotClosed(#[from] PoolFault),
    #[error("the pool was not ended: {0}")]
    NotEnded(FinishFault),
    #[error("the pool returned too few callers")]
    CallerMissing,
    #[error("the journal was not checked: {0}")]
    NotJudged(#[from] EngineFault),
    #[error("the report was not printed: {0}")]
    NotPrinted(#[from] io::Error),
    #[error("out of memory")]
    OutOfMemory,
}

/// A return that failed, with the object.
impl<T: Drop> From<(ReturnFault, Lent<T>)> for DayError {
    fn from(failed: (ReturnFault, Lent<T>)) -> DayError {
        let (fault, _) = failed;
        DayError::NotTakenBack(fault)
    }
}

/// A pool that was not ended, with the pool and its callers.
impl<P: Drop, C: Drop> From<(FinishFault, P, C)> for DayError {
    fn from(failed: (FinishFault, P, C)) -> DayError {
        let (fault, _, _) = failed;
        DayError::NotEnded(fault)
    }
}

impl From<AllocError> for DayError {
    fn from(_: AllocError) -> DayError {
        DayError::OutOfMemory
    }
}

impl<T: Drop> From<AllocFailed<T>> for DayError {
    fn from(_: AllocFailed<T>) -> DayError {
        DayError::OutOfMemory
    }
}
