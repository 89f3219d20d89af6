//! The progress of a long check, printed at a terminal.

use std::fs::File;
use std::io::{IsTerminal, Write};
use std::sync::atomic::{AtomicBool, AtomicU64, Ordering};
use std::time::Instant;

/// The number of seconds before the first message, and between two messages.
const PERIOD: u64 = 1;

/// The message on standard error while files are read, if that is a terminal: how much of them was read so
/// far. It is wiped before anything else is written. Threads that read may share it.
#[derive(Drop)]
pub(crate) struct Progress<'a> {
    rt: &'a HostRuntime,
    /// The name of the program.
    program: &'static str,
    /// The length of the files in bytes, as far as the system knows.
    length: AtomicU64,
    read: AtomicU64,
    /// The time at which the check began, or `None` if no message is printed.
    began: Option<Instant>,
    /// The number of seconds from then to the last message.
    reported: AtomicU64,
    is_shown: AtomicBool,
}

impl<'a> Progress<'a> {
    /// Returns the progress before the first file.
    pub fn of(rt: &'a HostRuntime, program: &'static str) -> Progress<'a> {
        let began = if rt.stderr().is_terminal() {
            Instant::now(rt).ok()
        } else {
            None
        };
        Progress {
            rt,
            program,
            length: AtomicU64::new(0),
            read: AtomicU64::new(0),
            began,
            reported: AtomicU64::new(0),
            is_shown: AtomicBool::new(false),
        }
    }

    /// Notes that a file will be read.
    pub fn expect(&self, file: &File) {
        let length = file.metadata().map_or(0, |metadata| metadata.len());
        self.length.fetch_add(length, Ordering::SeqCst);
    }

    /// Notes that `count` bytes were read, and prints a message if the last one was printed `PERIOD` seconds ago or
    /// earlier.
    pub fn note(&self, count: usize) {
        self.read.fetch_add(count as u64, Ordering::SeqCst);
        let Some(began) = self.began else {
            return;
        };
        let Ok(now) = Instant::now(self.rt) else {
            return;
        };
        let passed = now.duration_since(began).as_secs();
        let reported = self.reported.load(Ordering::SeqCst);
        if passed >= reported.saturating_add(PERIOD) && self.is_first_to_report(reported, passed) {
            self.show();
        }
    }

    /// Returns whether this thread is to print: notes the time `passed`, in seconds, unless another thread has printed
    /// since.
    fn is_first_to_report(&self, reported: u64, passed: u64) -> bool {
        self.reported
            .compare_exchange(reported, passed, Ordering::SeqCst, Ordering::SeqCst)
            .is_ok()
    }

    /// Prints how much was read, in millions of bytes, in place of the last message, which may be longer. A failed write is
    /// ignored.
    fn show(&self) {
        let read = self.read.load(Ordering::SeqCst) / 1_000_000;
        let length = self.length.load(Ordering::SeqCst) / 1_000_000;
        let program = self.program;
        let _ = if length == 0 || length < read {
            write!(self.rt.stderr(), "\r\x1b[K{program}: {read} MB")
        } else {
            write!(self.rt.stderr(), "\r\x1b[K{program}: {read} of {length} MB")
        };
        self.is_shown.store(true, Ordering::SeqCst);
    }

    /// Wipes the message.
    pub fn wipe(&self) {
        if self.is_shown.swap(false, Ordering::SeqCst) {
            let _ = self.rt.stderr().write_all(b"\r\x1b[K");
        }
    }
}
