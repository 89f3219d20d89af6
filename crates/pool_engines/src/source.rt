//! The readers that engines read from, and reads that go on after a signal.
ghost use Rattle.std.specs.Prelude.{◌≢◌, true, false, IfErr};
ghost use Rattle.std.specs.Io.{ReadsAtMost};
ghost use Rattle.std.specs.Io.KnownBytes.{ReadConsumes};
ghost use Rattle.std.specs.IoError.{error_kind};

use std::fs::File;
use std::io;
use std::io::{ErrorKind, Read, Stdin};

/// A reader that engines read from. Its contracts state whether it has failed, if that is known.
///
/// For a reader of which it isn't known, such as a file, `may_have_failed` is always true, and [`read_past_signals`] is
/// its `read_some`.
pub trait Source: Read {
    ghost use Rattle.std.specs.Prelude.{Bool, is_err};
    ghost use Rattle.std.specs.Io.{ReadsAtMost};
    ghost use Rattle.std.specs.Io.KnownBytes.{ReadConsumes};
    ghost use Rattle.pool_engines.specs.Faults.{IsReported};

    /// Whether a read may have failed.
    ghost may_have_failed: { Self → Bool };

    /// Reads as `read` does, and again if a signal interrupts it.
    ///
    /// # Errors
    ///
    /// A read failed. No byte is then taken.
    fn read_some(&mut self, buffer: &mut [u8]) -> io::Result<usize>
        ensures bound { ReadsAtMost result buffer.new }
        ensures bytes { ReadConsumes (Self.remaining self.old)
            (Self.remaining self.new) result buffer.new }
        ensures reported { IsReported (is_err result) (may_have_failed self.old)
            (may_have_failed self.new) };
}

/// A read of bytes in memory never fails.
impl Source for &[u8] {
    ghost may_have_failed = { λ _. false };

    fn read_some(&mut self, buffer: &mut [u8]) -> io::Result<usize> {
        self.read(buffer)
    }
}

impl Source for File {
    ghost may_have_failed = { λ _. true };

    fn read_some(&mut self, buffer: &mut [u8]) -> io::Result<usize> {
        read_past_signals(self, buffer)
    }
}

impl Source for Stdin {
    ghost may_have_failed = { λ _. true };

    fn read_some(&mut self, buffer: &mut [u8]) -> io::Result<usize> {
        read_past_signals(self, buffer)
    }
}

/// Reads as `read` does, and again if a signal interrupts it, at most 2^64 - 1 times.
///
/// # Errors
///
/// A read failed, or the last try was interrupted.
pub fn read_past_signals<R: Read>(reader: &mut R, buffer: &mut [u8]) -> io::Result<usize>
    ensures bound { ReadsAtMost result buffer.new }
    ensures bytes { ReadConsumes (R.remaining reader.old)
        (R.remaining reader.new) result buffer.new }
    ensures retried { IfErr result (λ fault. error_kind fault ≢ ErrorKind.Interrupted) }
{
    for _ in 0..u64::MAX {
        match reader.read(buffer) {
            Ok(count) => return Ok(count),
            Err(fault) => {
                if fault.kind() != ErrorKind::Interrupted {
                    return Err(fault);
                }
            }
        }
    }
    Err(ErrorKind::TimedOut.into())
}
