//! Why an engine stopped before the end of its stream, with the number of the line.

use pool_journal::LineFault;
use thiserror::Error;

/// Why an engine stopped before the end of its stream. Lines are counted from 1.
#[derive(Clone, Copy, Debug, PartialEq, Eq, Error)]
pub enum EngineFault {
    /// The line doesn't have the format.
    #[error("pool: line {0}: {1}")]
    Line(u64, LineFault),
    /// The journal has no room for the line's entry.
    #[error("pool: line {0}: journal full")]
    Full(u64),
    #[error("pool: out of memory")]
    OutOfMemory,
    #[error("pool: read failed")]
    Read,
    #[error("pool: write failed")]
    Write,
}
