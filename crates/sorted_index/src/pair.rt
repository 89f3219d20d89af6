//! An id and the key that is stored under it.

/// An id and the key that is stored under it.
#[derive(Clone, Copy, Debug, PartialEq, Eq)]
pub struct Pair {
    pub id: u64,
    pub key: usize,
}
