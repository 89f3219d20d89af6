//! A present object: its record, and its value if the pool stores it.

use pool_journal::Record;

/// An object: its record, and its value if the pool stores it.
#[derive(Drop)]
pub struct Place<T> {
    pub known: Record,
    pub value: Option<T>,
}
