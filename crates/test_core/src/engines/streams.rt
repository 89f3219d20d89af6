//! Readers and writers that pass few bytes at a time, fail, or never end.
ghost use Rattle.std.specs.Prelude.{◌≡◌, true, ◌≤◌, length, IfSome};

use pool_engines::{Sink, Source, flush_past_signals, read_past_signals, write_past_signals};
use std::alloc::Global;
use std::cell::Cell;
use std::io;
use std::io::{Read, Write};

/// A reader that returns its bytes in pieces, and notes how much was written before the second read.
#[derive(Drop)]
pub struct Pieces<'a> {
    rest: &'a [u8],
    size: usize,
    reads: usize,
    written: &'a Cell<usize>,
    seen: Option<usize>,
}

impl<'a> Pieces<'a> {
    pub fn new(rest: &'a [u8], size: usize, written: &'a Cell<usize>) -> Pieces<'a> {
        Pieces {
            rest,
            size,
            reads: 0,
            written,
            seen: None,
        }
    }

    pub fn reads(&self) -> usize {
        self.reads
    }

    pub fn written_at_second_read(&self) -> Option<usize> {
        self.seen
    }
}

impl Read for Pieces<'_> {
    fn read(&mut self, buf: &mut [u8]) -> io::Result<usize> {
        if self.reads == 1 {
            self.seen = Some(self.written.get());
        }
        self.reads = self.reads.saturating_add(1);
        let count = self.size.min(self.rest.len()).min(buf.len());
        buf[..count].copy_from_slice(&self.rest[..count]);
        self.rest = &self.rest[count..];
        Ok(count)
    }
}

impl Source for Pieces<'_> {
    ghost may_have_failed = { λ _. true };

    fn read_some(&mut self, buffer: &mut [u8]) -> io::Result<usize> {
        read_past_signals(self, buffer)
    }
}

/// A writer that takes few bytes at a time, and counts them.
#[derive(Drop)]
pub struct Stingy<'a> {
    bytes: Vec<u8>,
    size: usize,
    written: &'a Cell<usize>,
}

impl<'a> Stingy<'a> {
    pub fn new(alloc: Global, size: usize, written: &'a Cell<usize>) -> Stingy<'a> {
        Stingy {
            bytes: Vec::new(alloc),
            size,
            written,
        }
    }

    pub fn bytes(&self) -> &[u8] {
        &self.bytes
    }
}

impl Write for Stingy<'_> {
    fn write(&mut self, buf: &[u8]) -> io::Result<usize> {
        let count = self.size.min(buf.len());
        self.bytes.extend_from_slice(&buf[..count])?;
        self.written.set(self.bytes.len());
        Ok(count)
    }

    fn flush(&mut self) -> io::Result<()> {
        Ok(())
    }
}

impl Sink for Stingy<'_> {
    ghost may_have_failed = { λ _. true };

    fn write_some(&mut self, bytes: &[u8]) -> io::Result<usize> {
        write_past_signals(self, bytes)
    }

    fn flush_all(&mut self) -> io::Result<()> {
        flush_past_signals(self)
    }
}

/// A reader and writer that returns its bytes, or takes some, and then fails. It counts the calls after its failure.
#[derive(Drop)]
pub struct Failing<'a> {
    rest: &'a [u8],
    left: usize,
    taken: usize,
    has_failed: bool,
    calls_after: u64,
}

impl<'a> Failing<'a> {
    pub fn new(rest: &'a [u8], left: usize) -> Failing<'a> {
        Failing {
            rest,
            left,
            taken: 0,
            has_failed: false,
            calls_after: 0,
        }
    }

    pub fn taken(&self) -> usize {
        self.taken
    }

    pub fn has_failed(&self) -> bool {
        self.has_failed
    }

    pub fn calls_after(&self) -> u64 {
        self.calls_after
    }

    /// Notes a failure, and counts the call if there was one before.
    fn fail(&mut self) -> io::Error
        ensures { self.new.has_failed ≡ true }
    {
        if self.has_failed {
            self.calls_after = self.calls_after.saturating_add(1);
        }
        self.has_failed = true;
        io::ErrorKind::BrokenPipe.into()
    }

    /// Returns some bytes if any are left.
    fn give(&mut self, buf: &mut [u8]) -> Option<usize>
        ensures within { IfSome result (λ count. count ≤ length buf.new) }
        ensures failed { self.new.has_failed ≡ self.old.has_failed }
    {
        if self.rest.is_empty() {
            return None;
        }
        let count = self.left.min(self.rest.len()).min(buf.len());
        buf[..count].copy_from_slice(&self.rest[..count]);
        self.rest = &self.rest[count..];
        Some(count)
    }
}

impl Read for Failing<'_> {
    fn read(&mut self, buf: &mut [u8]) -> io::Result<usize> {
        match self.give(buf) {
            Some(count) => Ok(count),
            None => Err(self.fail()),
        }
    }
}

impl Source for Failing<'_> {
    ghost may_have_failed = { λ f. f.has_failed };

    fn read_some(&mut self, buffer: &mut [u8]) -> io::Result<usize> {
        match self.give(buffer) {
            Some(count) => Ok(count),
            None => Err(self.fail()),
        }
    }
}

impl Write for Failing<'_> {
    fn write(&mut self, buf: &[u8]) -> io::Result<usize> {
        if self.left == 0 {
            return Err(self.fail());
        }
        let count = self.left.min(buf.len());
        self.left -= count;
        self.taken = self.taken.saturating_add(count);
        Ok(count)
    }

    fn flush(&mut self) -> io::Result<()> {
        Ok(())
    }
}

impl Sink for Failing<'_> {
    ghost may_have_failed = { λ _. true };

    fn write_some(&mut self, bytes: &[u8]) -> io::Result<usize> {
        write_past_signals(self, bytes)
    }

    fn flush_all(&mut self) -> io::Result<()> {
        flush_past_signals(self)
    }
}

/// A writer that takes some bytes, and then fails or takes none.
#[derive(Drop)]
pub struct Limited {
    bytes: Vec<u8>,
    left: usize,
    fails: bool,
}

impl Limited {
    pub fn new(alloc: Global, left: usize, fails: bool) -> Limited {
        Limited {
            bytes: Vec::new(alloc),
            left,
            fails,
        }
    }

    pub fn bytes(&self) -> &[u8] {
        &self.bytes
    }
}

impl Write for Limited {
    fn write(&mut self, buf: &[u8]) -> io::Result<usize> {
        let count = self.left.min(buf.len());
        if count == 0 && self.fails {
            return Err(io::ErrorKind::BrokenPipe.into());
        }
        self.bytes.extend_from_slice(&buf[..count])?;
        self.left -= count;
        Ok(count)
    }

    fn flush(&mut self) -> io::Result<()> {
        Ok(())
    }
}

impl Sink for Limited {
    ghost may_have_failed = { λ _. true };

    fn write_some(&mut self, bytes: &[u8]) -> io::Result<usize> {
        write_past_signals(self, bytes)
    }

    fn flush_all(&mut self) -> io::Result<()> {
        flush_past_signals(self)
    }
}

/// A reader that returns a line again and again, and never ends.
#[derive(Drop)]
pub struct Endless<'a> {
    line: &'a [u8],
    next: usize,
    reads: u64,
}

impl<'a> Endless<'a> {
    pub fn new(line: &'a [u8]) -> Endless<'a> {
        Endless {
            line,
            next: 0,
            reads: 0,
        }
    }

    pub fn reads(&self) -> u64 {
        self.reads
    }
}

impl Read for Endless<'_> {
    fn read(&mut self, buf: &mut [u8]) -> io::Result<usize> {
        self.reads = self.reads.saturating_add(1);
        for place in buf.iter_mut() {
            *place = self.line.get(self.next).copied().unwrap_or(b'\n');
            self.next = self.next.saturating_add(1);
            if self.next >= self.line.len() {
                self.next = 0;
            }
        }
        Ok(buf.len())
    }
}

impl Source for Endless<'_> {
    ghost may_have_failed = { λ _. true };

    fn read_some(&mut self, buffer: &mut [u8]) -> io::Result<usize> {
        read_past_signals(self, buffer)
    }
}
