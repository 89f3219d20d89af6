//! How a thread pauses for a while before it sleeps. No contract states this, and no proof depends on it.

use crate::pauses::{CALLS, Pauses};
use crossbeam_utils::CachePadded;
use std::sync::atomic::{AtomicBool, Ordering};
use std::sync::{Condvar, Mutex, MutexGuard, Wait};
use std::time::Duration;

/// A mutex on cache lines of its own.
#[derive(Drop)]
pub(crate) struct PausingMutex<T> {
    mutex: CachePadded<Mutex<T>>,
    /// Whether a thread that made all its pauses still wants the lock, and no other thread has given way since.
    is_wanted: CachePadded<AtomicBool>,
}

impl<T> PausingMutex<T> {
    pub(crate) fn new(value: T) -> PausingMutex<T> {
        PausingMutex {
            mutex: CachePadded::new(Mutex::new(value)),
            is_wanted: CachePadded::new(AtomicBool::new(false)),
        }
    }

    pub(crate) fn into_inner(self) -> T {
        self.mutex.into_inner().into_inner()
    }

    /// Pauses once if another thread still wants the lock after all its pauses, so that it need not sleep.
    fn give_way(&self) {
        if self.is_wanted.load(Ordering::SeqCst) {
            self.is_wanted.store(false, Ordering::SeqCst);
            Pauses::new().pause();
        }
    }
}

/// Takes the lock, and returns its guard.
#[inline(always)]
pub(crate) fn lock<'a, T, R: Wait>(rt: &R, pausing: &'a PausingMutex<T>) -> MutexGuard<'a, T> {
    let mutex: &'a Mutex<T> = &pausing.mutex;
    pausing.give_way();
    match mutex.try_lock() {
        Some(guard) => guard,
        None => lock_after_pauses(rt, pausing),
    }
}

/// Takes a lock that another thread has. The thread tries it after each of several pauses before it waits in the lock.
/// While it pauses, another thread keeps what the lock protects in its processor's cache, for many critical sections.
#[inline(never)]
fn lock_after_pauses<'a, T, R: Wait>(rt: &R, pausing: &'a PausingMutex<T>) -> MutexGuard<'a, T> {
    let mutex: &'a Mutex<T> = &pausing.mutex;
    let mut pauses = Pauses::new();
    for _ in 0..CALLS {
        if !pauses.pause() {
            break;
        }
        if let Some(guard) = mutex.try_lock() {
            return guard;
        }
    }
    pausing.is_wanted.store(true, Ordering::SeqCst);
    mutex.lock(rt)
}

/// The changes of a pool for which threads wait.
#[derive(Drop)]
pub(crate) struct Changes {
    condition: Condvar,
    /// Whether a thread waits for the next change. It is set under the lock, after the notifications were counted, and
    /// cleared before the next notification.
    is_awaited: CachePadded<AtomicBool>,
}

impl Changes {
    pub(crate) fn new() -> Changes {
        Changes {
            condition: Condvar::new(),
            is_awaited: CachePadded::new(AtomicBool::new(false)),
        }
    }

    /// Notifies the threads that wait, after a change that was made under the lock.
    pub(crate) fn notify_all(&self) {
        if self.is_awaited.load(Ordering::SeqCst) {
            self.is_awaited.store(false, Ordering::SeqCst);
            self.condition.notify_all();
        }
    }

    /// Releases the lock, and returns the number of notifications before the next change.
    fn await_next<T>(&self, guard: MutexGuard<'_, T>) -> u64 {
        let seen = self.condition.notifications();
        self.is_awaited.store(true, Ordering::SeqCst);
        drop(guard);
        seen
    }

    /// Sleeps until a notification, and returns the guard of the lock. It may return without a notification.
    pub(crate) fn sleep<'a, T, R: Wait>(
        &self,
        rt: &R,
        pausing: &'a PausingMutex<T>,
        guard: MutexGuard<'a, T>,
    ) -> MutexGuard<'a, T> {
        let seen = self.await_next(guard);
        self.condition.sleep(rt, seen, Duration::MAX);
        lock(rt, pausing)
    }

    /// Waits for a notification, and returns the guard of the lock. It may return without a notification. A thread
    /// looks for it after each of its pauses, those that other waits have left, before it sleeps.
    pub(crate) fn wait<'a, T, R: Wait>(
        &self,
        rt: &R,
        pausing: &'a PausingMutex<T>,
        guard: MutexGuard<'a, T>,
        pauses: &mut Pauses,
    ) -> MutexGuard<'a, T> {
        let seen = self.await_next(guard);
        for _ in 0..CALLS {
            if !pauses.pause() {
                self.condition.sleep(rt, seen, Duration::MAX);
                *pauses = Pauses::new();
                break;
            }
            if self.condition.notifications() != seen {
                break;
            }
        }
        lock(rt, pausing)
    }
}
