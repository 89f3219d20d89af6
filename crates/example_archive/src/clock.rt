//! A clock that returns the milliseconds since its start, by the system's time.

use pool_shared::Clock;
use std::io;
use std::time::Instant;

/// A clock that returns the milliseconds since its start.
#[derive(Clone, Copy)]
pub struct Uptime {
    rt: HostRuntime,
    started: Instant,
}

impl Uptime {
    pub fn start(rt: &HostRuntime) -> io::Result<Uptime> {
        Ok(Uptime {
            rt: *rt,
            started: Instant::now(rt)?,
        })
    }
}

impl Clock for Uptime {
    /// Returns the milliseconds since the start, or 0 if the system returns no time: a pool accepts times that go back.
    fn now(&self) -> u64 {
        match self.started.elapsed(&self.rt) {
            Ok(elapsed) => u64::try_from(elapsed.as_millis()).unwrap_or(u64::MAX),
            Err(_) => 0,
        }
    }
}
