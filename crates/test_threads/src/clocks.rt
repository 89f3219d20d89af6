//! The clock of the tests, which stands still, returns the time that is set, or waits at the gate.

use crate::turns::{Flag, Flags};
use pool_shared::Clock;

/// A clock that the test controls.
#[derive(Drop)]
pub enum TestClock<'a> {
    /// Returns 0.
    Still,
    /// Returns the time that the flags have.
    Set(&'a Flags),
    /// Sets `Read` when it is read, waits at the gate, and returns 0.
    Held(&'a Flags),
}

impl Clock for TestClock<'_> {
    fn now(&self) -> u64 {
        match self {
            TestClock::Still => 0,
            TestClock::Set(flags) => flags.time(),
            TestClock::Held(flags) => {
                flags.set(Flag::Read);
                flags.wait_at_the_gate();
                0
            }
        }
    }
}
