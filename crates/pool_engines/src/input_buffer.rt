//! The bytes that were read from a stream and are not handled yet.
ghost use Rattle.std.specs.Prelude.{◌≡◌, ℕ, ◌+◌, ◌-◌, ◌<◌, ◌≤◌, List, [], ◌++◌, length, take, drop, slice_range, is_err, IfOk, IfErr, OnOk, OnErr};
ghost use Rattle.std.specs.Io.KnownBytes.{Consumes, IsAtEnd, Keeps};
ghost use Rattle.pool_engines.specs.Leaving.{most_bytes, read_ahead};
ghost use Rattle.pool_engines.specs.Faults.{IsReported};

use crate::engine_fault::EngineFault;
use crate::source::Source;
use std::alloc::{AllocError, Global};
use std::marker::Model;

/// The capacity of the input buffer, in bytes.
const CAPACITY: usize = 65_536;

/// The most bytes of a line that can be read, line feed included.
pub(crate) const LINE: usize = 256;

/// The bytes of a stream that were read and aren't handled yet.
#[derive(Drop)]
pub(crate) struct InputBuffer {
    buffer: Vec<u8>,
    start: usize,
    end: usize,
}

impl Model for InputBuffer {
    ghost Value = { List ℕ };

    ghost view = { λ l. slice_range l.buffer.items l.start l.end };

    ghost invariant = { λ l. (l.start ≤ l.end) × (l.end ≤ 65536)
        × (length l.buffer.items ≡ 65536) };
}

impl InputBuffer {
    pub(crate) fn new(alloc: Global) -> Result<InputBuffer, AllocError>
        ensures { IfOk result (λ incoming. incoming ≡ []) }
    {
        Ok(InputBuffer {
            buffer: vec![in alloc; 0; CAPACITY]?,
            start: 0,
            end: 0,
        })
    }

    pub(crate) fn bytes(&self) -> &[u8]
        ensures { result.now ≡ self.now }
    {
        &self.buffer[self.start..self.end]
    }

    /// Drops the first bytes, which are handled.
    pub(crate) fn drop_front(&mut self, count: usize)
        requires { count ≤ length self.old }
        ensures { self.new ≡ drop count self.old }
    {
        self.start += count;
    }

    /// Reads more bytes after the buffered ones, and returns their number: 0 only at the end of the stream. Then as many
    /// bytes are buffered as this number of lines and one more can have, or fewer.
    pub(crate) fn fill<R: Source>(
        &mut self,
        lines: u64,
        reader: &mut R,
    ) -> Result<usize, EngineFault>
        requires { length self.old < 256 }
        ensures more { IfOk result (λ count. (more : List ℕ) × (length more ≡ count)
            × (self.new ≡ self.old ++ more)
            × Consumes (R.remaining reader.old) (R.remaining reader.new) more) }
        ensures end { result ≡ Ok 0 → IsAtEnd (R.remaining reader.new) }
        ensures unchanged_on_error { OnErr result ((self.new ≡ self.old)
            × Keeps (R.remaining reader.old) (R.remaining reader.new)) }
        ensures fault { IfErr result (λ fault. fault ≡ EngineFault.Read) }
        ensures reported { IsReported (is_err result) (R.may_have_failed reader.old)
            (R.may_have_failed reader.new) }
        ensures ahead { (length self.new ≤ read_ahead) × (length self.new ≤ most_bytes lines) }
    {
        let kept = self.end - self.start;
        self.buffer.copy_within(self.start..self.end, 0);
        self.start = 0;
        self.end = kept;
        let most = LINE * (lines.min(255) as usize + 1);
        let count = read_behind(&mut self.buffer, kept, most, reader)?;
        self.end = kept + count;
        Ok(count)
    }
}

/// Reads into the buffer from an index on, and up to another.
pub(crate) fn read_behind<R: Source>(
    buffer: &mut [u8],
    from: usize,
    to: usize,
    reader: &mut R,
) -> Result<usize, EngineFault>
    requires { (from < to) × (to ≤ length buffer.old) }
    ensures front { take from buffer.new ≡ take from buffer.old }
    ensures more { IfOk result (λ count. (from + count ≤ to)
        × Consumes (R.remaining reader.old) (R.remaining reader.new)
        (slice_range buffer.new from (from + count))) }
    ensures end { result ≡ Ok 0 → IsAtEnd (R.remaining reader.new) }
    ensures unchanged_on_error { OnErr result (Keeps (R.remaining reader.old) (R.remaining reader.new)) }
    ensures fault { IfErr result (λ fault. fault ≡ EngineFault.Read) }
    ensures reported { IsReported (is_err result) (R.may_have_failed reader.old)
        (R.may_have_failed reader.new) }
{
    match reader.read_some(&mut buffer[from..to]) {
        Ok(count) => Ok(count),
        Err(_) => Err(EngineFault::Read),
    }
}
