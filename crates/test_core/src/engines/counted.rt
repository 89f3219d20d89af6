//! A reader and a writer that count their calls, and are interrupted.
ghost use Rattle.std.specs.Prelude.{true};

use pool_engines::{Sink, Source, flush_past_signals, read_past_signals, write_past_signals};
use std::alloc::Global;
use std::io;
use std::io::{Read, Write};

/// The calls of a reader.
#[derive(Clone, Copy, Debug, PartialEq)]
pub struct Asked {
    /// The reads that a signal didn't interrupt.
    pub reads: u64,
    /// Those of these reads that found the end.
    pub ends: u64,
    /// The length of the shortest buffer.
    pub least_room: usize,
    /// The length of the longest buffer.
    pub most_room: usize,
}

/// A reader that returns its bytes, and is interrupted `interruptions` times before each read.
#[derive(Drop)]
pub struct CountedReader<'a> {
    rest: &'a [u8],
    interruptions: u64,
    left: u64,
    asked: Asked,
}

impl<'a> CountedReader<'a> {
    pub fn new(rest: &'a [u8], interruptions: u64) -> CountedReader<'a> {
        CountedReader {
            rest,
            interruptions,
            left: interruptions,
            asked: Asked {
                reads: 0,
                ends: 0,
                least_room: usize::MAX,
                most_room: 0,
            },
        }
    }

    pub fn asked(&self) -> Asked {
        self.asked
    }
}

impl Read for CountedReader<'_> {
    fn read(&mut self, buf: &mut [u8]) -> io::Result<usize> {
        if self.left > 0 {
            self.left -= 1;
            return Err(io::ErrorKind::Interrupted.into());
        }
        self.left = self.interruptions;
        let count = self.rest.len().min(buf.len());
        self.asked.reads = self.asked.reads.saturating_add(1);
        if count == 0 {
            self.asked.ends = self.asked.ends.saturating_add(1);
        }
        self.asked.least_room = self.asked.least_room.min(buf.len());
        self.asked.most_room = self.asked.most_room.max(buf.len());
        buf[..count].copy_from_slice(&self.rest[..count]);
        self.rest = &self.rest[count..];
        Ok(count)
    }
}

impl Source for CountedReader<'_> {
    ghost may_have_failed = { λ _. true };

    fn read_some(&mut self, buffer: &mut [u8]) -> io::Result<usize> {
        read_past_signals(self, buffer)
    }
}

/// The calls of a writer.
#[derive(Clone, Copy, Debug, PartialEq)]
pub struct Handed {
    /// The writes that a signal didn't interrupt.
    pub writes: u64,
    /// The flushes after a write.
    pub flushes: u64,
    /// The flushes with nothing written before them.
    pub idle_flushes: u64,
    /// The bytes that no flush followed.
    pub unflushed: usize,
}

/// A writer that takes all bytes, and is interrupted `interruptions` times before each write and each flush.
#[derive(Drop)]
pub struct CountedWriter {
    bytes: Vec<u8>,
    interruptions: u64,
    left: u64,
    handed: Handed,
}

impl CountedWriter {
    pub fn new(alloc: Global, interruptions: u64) -> CountedWriter {
        CountedWriter {
            bytes: Vec::new(alloc),
            interruptions,
            left: interruptions,
            handed: Handed {
                writes: 0,
                flushes: 0,
                idle_flushes: 0,
                unflushed: 0,
            },
        }
    }

    pub fn handed(&self) -> Handed {
        self.handed
    }

    pub fn bytes(&self) -> &[u8] {
        &self.bytes
    }

    /// Returns whether a signal interrupts this call.
    fn is_interrupted(&mut self) -> bool {
        if self.left > 0 {
            self.left -= 1;
            return true;
        }
        self.left = self.interruptions;
        false
    }
}

impl Write for CountedWriter {
    fn write(&mut self, buf: &[u8]) -> io::Result<usize> {
        if self.is_interrupted() {
            return Err(io::ErrorKind::Interrupted.into());
        }
        self.bytes.extend_from_slice(buf)?;
        self.handed.writes = self.handed.writes.saturating_add(1);
        self.handed.unflushed = self.handed.unflushed.saturating_add(buf.len());
        Ok(buf.len())
    }

    fn flush(&mut self) -> io::Result<()> {
        if self.is_interrupted() {
            return Err(io::ErrorKind::Interrupted.into());
        }
        if self.handed.unflushed > 0 {
            self.handed.flushes = self.handed.flushes.saturating_add(1);
        } else {
            self.handed.idle_flushes = self.handed.idle_flushes.saturating_add(1);
        }
        self.handed.unflushed = 0;
        Ok(())
    }
}

impl Sink for CountedWriter {
    ghost may_have_failed = { λ _. true };

    fn write_some(&mut self, bytes: &[u8]) -> io::Result<usize> {
        write_past_signals(self, bytes)
    }

    fn flush_all(&mut self) -> io::Result<()> {
        flush_past_signals(self)
    }
}
