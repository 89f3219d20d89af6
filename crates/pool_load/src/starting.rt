//! Holds the workers back until each has a thread.

use std::sync::{Condvar, Mutex, Wait};

#[derive(Clone, Copy)]
enum Signal {
    /// Not all threads exist yet.
    Wait,
    Work,
    /// Some thread was not created.
    GoHome,
}

/// Holds workers back until each has a thread, so that none waits at a gate for one that never comes.
#[derive(Drop)]
pub(crate) struct Start {
    signal: Mutex<Signal>,
    given: Condvar,
}

impl Start {
    pub(crate) fn new() -> Start {
        Start {
            signal: Mutex::new(Signal::Wait),
            given: Condvar::new(),
        }
    }

    /// Gives the signal: to work, if all workers have a thread.
    pub(crate) fn give<R: Wait>(&self, rt: &R, all_there: bool) {
        let mut signal = self.signal.lock(rt);
        *signal = if all_there {
            Signal::Work
        } else {
            Signal::GoHome
        };
        self.given.notify_all();
    }

    /// Waits for the signal, and returns whether it is to work.
    pub(crate) fn wait<R: Wait>(&self, rt: &R) -> bool {
        let signal = self.given.wait_while(rt, self.signal.lock(rt), |signal| {
            matches!(*signal, Signal::Wait)
        });
        matches!(*signal, Signal::Work)
    }
}
