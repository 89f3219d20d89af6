//! The writers that engines write to, and writes that go on after a signal.
ghost use Rattle.std.specs.Prelude.{◌≢◌, ◌<◌, true, false, length, IfOk, IfErr};
ghost use Rattle.std.specs.Io.{WritesAtMost};
ghost use Rattle.std.specs.Io.KnownBytes.{Keeps, WriteAppends};
ghost use Rattle.std.specs.IoError.{error_kind};

use std::io;
use std::io::{ErrorKind, Stdout, Write};

/// A writer that engines write to. Its contracts state whether it has failed, if that is known. A writer that accepts
/// none of some bytes has failed.
///
/// For a writer of which it isn't known, such as standard output, `may_have_failed` is always true, and
/// [`write_past_signals`] and [`flush_past_signals`] are its `write_some` and `flush_all`.
pub trait Sink: Write {
    ghost use Rattle.std.specs.Prelude.{◌<◌, Bool, length, is_err, IfOk};
    ghost use Rattle.std.specs.Io.{WritesAtMost};
    ghost use Rattle.std.specs.Io.KnownBytes.{WriteAppends, Keeps};
    ghost use Rattle.pool_engines.specs.Faults.{IsReported};

    /// Whether a write or a flush may have failed.
    ghost may_have_failed: { Self → Bool };

    /// Writes as `write` does, and again if a signal interrupts it.
    ///
    /// # Errors
    ///
    /// A write failed, or accepted none of some bytes. None is then written.
    fn write_some(&mut self, bytes: &[u8]) -> io::Result<usize>
        ensures bound { WritesAtMost result bytes.now }
        ensures bytes { WriteAppends (Self.contents self.old)
            (Self.contents self.new) result bytes.now }
        ensures some { IfOk result (λ count. 0 < length bytes.now → 0 < count) }
        ensures reported { IsReported (is_err result) (may_have_failed self.old)
            (may_have_failed self.new) };

    /// Flushes as `flush` does, and again if a signal interrupts it.
    ///
    /// # Errors
    ///
    /// A flush failed.
    fn flush_all(&mut self) -> io::Result<()>
        ensures bytes { Keeps (Self.contents self.old) (Self.contents self.new) }
        ensures reported { IsReported (is_err result) (may_have_failed self.old)
            (may_have_failed self.new) };
}

impl Sink for Vec<u8> {
    ghost may_have_failed = { λ _. true };

    fn write_some(&mut self, bytes: &[u8]) -> io::Result<usize> {
        write_past_signals(self, bytes)
    }

    fn flush_all(&mut self) -> io::Result<()> {
        flush_past_signals(self)
    }
}

/// It writes nothing, and never fails.
impl Sink for io::Sink {
    ghost may_have_failed = { λ _. false };

    fn write_some(&mut self, bytes: &[u8]) -> io::Result<usize> {
        self.write(bytes)
    }

    fn flush_all(&mut self) -> io::Result<()> {
        self.flush()
    }
}

impl Sink for Stdout {
    ghost may_have_failed = { λ _. true };

    fn write_some(&mut self, bytes: &[u8]) -> io::Result<usize> {
        write_past_signals(self, bytes)
    }

    fn flush_all(&mut self) -> io::Result<()> {
        flush_past_signals(self)
    }
}

/// Writes as `write` does, and again if a signal interrupts it, at most 2^64 - 1 times.
///
/// # Errors
///
/// A write failed, or accepted none of some bytes, or the last try was interrupted.
pub fn write_past_signals<W: Write>(writer: &mut W, bytes: &[u8]) -> io::Result<usize>
    ensures bound { WritesAtMost result bytes.now }
    ensures bytes { WriteAppends (W.contents writer.old) (W.contents writer.new) result bytes.now }
    ensures some { IfOk result (λ count. 0 < length bytes.now → 0 < count) }
    ensures retried { IfErr result (λ fault. error_kind fault ≢ ErrorKind.Interrupted) }
{
    for _ in 0..u64::MAX {
        match writer.write(bytes) {
            Ok(0) if !bytes.is_empty() => return Err(ErrorKind::WriteZero.into()),
            Ok(count) => return Ok(count),
            Err(fault) => {
                if fault.kind() != ErrorKind::Interrupted {
                    return Err(fault);
                }
            }
        }
    }
    Err(ErrorKind::TimedOut.into())
}

/// Flushes as `flush` does, and again if a signal interrupts it, at most 2^64 - 1 times.
///
/// # Errors
///
/// A flush failed, or the last try was interrupted.
pub fn flush_past_signals<W: Write>(writer: &mut W) -> io::Result<()>
    ensures bytes { Keeps (W.contents writer.old) (W.contents writer.new) }
    ensures retried { IfErr result (λ fault. error_kind fault ≢ ErrorKind.Interrupted) }
{
    for _ in 0..u64::MAX {
        match writer.flush() {
            Ok(()) => return Ok(()),
            Err(fault) => {
                if fault.kind() != ErrorKind::Interrupted {
                    return Err(fault);
                }
            }
        }
    }
    Err(ErrorKind::TimedOut.into())
}
