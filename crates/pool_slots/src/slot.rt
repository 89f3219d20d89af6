//! An object under its key, with its links.

use crate::linking::Links;
use pool_journal::Record;

/// An object with its links. Outside the queue the links mean nothing.
#[derive(Drop)]
pub(crate) struct Slot<T> {
    pub(crate) known: Record,
    pub(crate) value: Option<T>,
    pub(crate) links: Links,
}
