//! Why a step was not taken. The value that was passed in is returned with the error.

/// Why a step failed, with the value that was passed in. The pool is unchanged.
#[derive(Drop)]
pub enum StepFault<T> {
    /// The entry would take the journal past its limit.
    JournalFull(Option<T>),
    /// An allocation failed.
    OutOfMemory(Option<T>),
}
