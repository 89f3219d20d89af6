//! Checks that end a test unless two values are equal.

use pool_journal::LineFault;
use std::fmt::Debug;
use std::process::Abort;

/// Ends the test unless both are equal.
pub fn expect_equal<T: Copy + PartialEq + Debug>(rt: &impl Abort, found: T, wanted: T) {
    assert_eq!(rt; found, wanted);
}

/// Ends the test unless `found` is `wanted`, and names the text that was read.
pub fn expect_read<T: Copy + PartialEq + Debug>(
    rt: &impl Abort,
    text: &[u8],
    found: Result<T, LineFault>,
    wanted: Result<T, LineFault>,
) {
    assert_eq!(rt; found, wanted, "in \"{}\"", text.escape_ascii());
}
