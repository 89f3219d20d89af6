//! The lines of a stream.
ghost use Rattle.std.specs.Prelude.{◌≡◌, ◌≤◌, length};

use std::alloc::{AllocError, Global};
use std::io;
use std::io::{ErrorKind, Read};

/// The most bytes that are buffered.
const CAPACITY: usize = 65_536;

/// The most bytes of a line that can be read, line feed included.
const LINE: usize = 256;

/// The bytes of a stream that were read and not handled yet.
#[derive(Drop)]
pub struct Incoming<R: Read + Drop> {
    reader: R,
    buffer: Vec<u8>,
    start: usize,
    end: usize,
    /// The number of the line that comes next, from 1.
    line: u64,
    ghost in_order: { start ≤ end },
    ghost in_buffer: { end ≤ 65536 },
    ghost full_length: { length buffer.items ≡ 65536 },
}

impl<R: Read + Drop> Incoming<R> {
    /// Returns a stream of which nothing was read yet.
    pub fn new(alloc: Global, reader: R) -> Result<Incoming<R>, AllocError> {
        Ok(Incoming {
            reader,
            buffer: vec![in alloc; 0; CAPACITY]?,
            start: 0,
            end: 0,
            line: 1,
        })
    }

    /// Returns the bytes that were read and not handled yet.
    pub fn bytes(&self) -> &[u8] {
        &self.buffer[self.start..self.end]
    }

    /// Returns the number of the line that comes next, from 1.
    pub fn line(&self) -> u64 {
        self.line
    }

    /// Drops the first `count` bytes, which are a line that is handled.
    pub fn drop_line(&mut self, count: usize) {
        self.start = self.start.saturating_add(count).min(self.end);
        self.line = self.line.saturating_add(1);
    }

    /// Reads until it has read a whole line, the most bytes that a line may have, or the end of the stream. Returns
    /// whether there are any bytes.
    ///
    /// # Errors
    ///
    /// A read failed.
    pub fn await_line(&mut self) -> io::Result<bool> {
        for _ in 0..u64::MAX {
            let bytes = self.bytes();
            if bytes.len() >= LINE || bytes.contains(&b'\n') {
                return Ok(true);
            }
            if self.fill()? == 0 {
                break;
            }
        }
        Ok(!self.bytes().is_empty())
    }

    /// Reads more bytes, and returns their number: 0 at the end of the stream.
    fn fill(&mut self) -> io::Result<usize> {
        self.make_room();
        for _ in 0..u64::MAX {
            match self.reader.read(&mut self.buffer[self.end..]) {
                Ok(count) => {
                    self.end += count;
                    return Ok(count);
                }
                Err(cause) if cause.kind() == ErrorKind::Interrupted => {}
                Err(cause) => return Err(cause),
            }
        }
        Err(io::Error::from(ErrorKind::Interrupted))
    }

    /// Moves the bytes to the beginning of the buffer.
    fn make_room(&mut self) {
        self.buffer.copy_within(self.start..self.end, 0);
        self.end -= self.start;
        self.start = 0;
    }
}
