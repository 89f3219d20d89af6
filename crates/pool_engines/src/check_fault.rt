//! Why a check in parallel stopped, with the number of the file.

use crate::engine_fault::EngineFault;
use thiserror::Error;

/// Why a check that opens its files itself stopped. Files are counted from 0, and the number is that of the first file,
/// in their order, that stops it.
#[derive(Clone, Copy, Debug, PartialEq, Eq, Error)]
pub enum CheckFault {
    /// The file of this number can't be opened.
    #[error("pool: cannot open file {0}")]
    Unopened(u64),
    /// The settings of the file of this number leave no room for the entries that are outstanding before it.
    #[error("pool: base: no room")]
    NoRoom(u64),
    /// The file of this number isn't checked to its end.
    #[error("{1}")]
    File(u64, EngineFault),
    /// The line of the verdict isn't written.
    #[error("{0}")]
    Untold(EngineFault),
}
