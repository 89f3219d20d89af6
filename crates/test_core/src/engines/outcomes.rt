//! Checks that end a test unless an engine returned or wrote the expected result.

use crate::engines::stats_of_at_most;
use pool_engines::EngineFault;
use std::alloc::Global;
use std::fmt::Debug;
use std::process::Abort;

/// Ends the test unless `found` is `wanted`.
pub fn is<T: Debug + Drop + PartialEq>(rt: &impl Abort, found: T, wanted: T) {
    assert_eq!(rt; found, wanted);
}

/// Ends the test unless `found` is `wanted`, and names the text.
pub fn is_at<T: Debug + Drop + PartialEq>(rt: &impl Abort, text: &str, found: T, wanted: T) {
    assert_eq!(rt; found, wanted, "at {text}");
}

/// Ends the test unless the written bytes are the text.
pub fn wrote(rt: &impl Abort, written: &[u8], wanted: &str) {
    is(rt, written, wanted.as_bytes());
}

/// Compares the result and the written lines of the statistics of a journal, of at most `limit` objects and entries.
pub fn sums_up(
    rt: &impl Abort,
    alloc: Global,
    limit: u64,
    journal: &str,
    ended: Result<(), EngineFault>,
    reported: &str,
) {
    let mut rest = journal.as_bytes();
    let mut written = Vec::new(alloc);
    let found = stats_of_at_most(alloc, limit, &mut rest, &mut written);
    let wanted = (ended, reported.as_bytes());
    is_at(rt, journal, (found, written.as_slice()), wanted);
}
