//! The errors that end the work of the example early.

use std::alloc::{AllocError, AllocFailed};
use std::io;

/// An error that ends the work early.
#[derive(Clone, Copy, Debug)]
pub enum WorkError {
    /// The argument, the folder of the archive, is missing.
    NoFolder,
    Settings,
    NotOpened,
    NotBorrowed,
    NotTakenBack,
    NotMaintained,
    NotClosed,
    CallerMissing,
    /// The system returned no time, created no thread or wrote no file: perhaps the folder already has an archive.
    System,
    OutOfMemory,
}

impl From<io::Error> for WorkError {
    fn from(_: io::Error) -> WorkError {
        WorkError::System
    }
}

impl From<AllocError> for WorkError {
    fn from(_: AllocError) -> WorkError {
        WorkError::OutOfMemory
    }
}

impl<T: Drop> From<AllocFailed<T>> for WorkError {
    fn from(_: AllocFailed<T>) -> WorkError {
        WorkError::OutOfMemory
    }
}
