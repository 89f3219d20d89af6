//! A pair as it is stored, with the mark of a removed one.

use crate::pair::Pair;

/// A pair as it is stored. A removed pair is marked, and dropped later.
#[derive(Clone, Copy)]
pub(crate) struct Stored {
    pub pair: Pair,
    pub is_gone: bool,
}
