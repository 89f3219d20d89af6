//! Why a pool can't go on with other settings.

use thiserror::Error;

/// Why a pool goes on with its settings, and not with others.
#[derive(Clone, Copy, Debug, PartialEq, Eq, Error)]
pub enum ReconfigureError {
    /// The journal's new limit has no room for the outstanding entries.
    #[error("no room")]
    NoRoom,
    /// An allocation failed.
    #[error("out of memory")]
    OutOfMemory,
}
