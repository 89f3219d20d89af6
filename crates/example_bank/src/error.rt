//! The errors that end the day of the bank early.

use sqlite::Error;
use std::alloc::{AllocError, AllocFailed};
use std::io;

/// An error that ends the day early.
#[derive(Clone, Copy, Debug)]
pub enum DayError {
    Settings,
    NotOpened,
    NotBorrowed,
    NotTakenBack,
    NotCarriedOut,
    NotMaintained,
    NotClosed,
    CallerMissing,
    Database(Error),
    System,
    OutOfMemory,
}

impl From<Error> for DayError {
    fn from(error: Error) -> DayError {
        DayError::Database(error)
    }
}

impl From<io::Error> for DayError {
    fn from(_: io::Error) -> DayError {
        DayError::System
    }
}

impl From<AllocError> for DayError {
    fn from(_: AllocError) -> DayError {
        DayError::OutOfMemory
    }
}

impl<T: Drop> From<AllocFailed<T>> for DayError {
    fn from(_: AllocFailed<T>) -> DayError {
        DayError::OutOfMemory
    }
}
