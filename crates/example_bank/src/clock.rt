//! A clock that returns the milliseconds since its start, by the system's time, and waits.

use pool_shared::Clock;
use std::time::{Duration, Instant};
use std::{io, thread};

/// A clock that returns the milliseconds since its start.
#[derive(Clone, Copy)]
pub struct OfficeClock {
    rt: HostRuntime,
    started: Instant,
}

impl OfficeClock {
    pub fn start(rt: &HostRuntime) -> io::Result<OfficeClock> {
        Ok(OfficeClock {
            rt: *rt,
            started: Instant::now(rt)?,
        })
    }

    /// Waits for `millis` milliseconds.
    pub fn pass(&self, millis: u64) {
        thread::sleep(&self.rt, Duration::from_millis(millis));
    }
}

impl Clock for OfficeClock {
    /// Returns the milliseconds since the start, or 0 if the system returns no time: a pool accepts times that go back.
    fn now(&self) -> u64 {
        match self.started.elapsed(&self.rt) {
            Ok(elapsed) => u64::try_from(elapsed.as_millis()).unwrap_or(u64::MAX),
            Err(_) => 0,
        }
    }
}
