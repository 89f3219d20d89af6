//! A file of a check while it is read.
ghost use Rattle.std.specs.Io.{ReadsAtMost};
ghost use Rattle.std.specs.Prelude.{true};

use crate::progress::Progress;
use pool_engines::{Source, read_past_signals};
use std::fs::File;
use std::io;
use std::io::Read;

/// The way in which a file is read.
#[derive(Drop)]
pub(crate) enum Reading<'o> {
    /// From the position at which it was last read.
    InTurn(&'o File),
    /// It was opened to be read once.
    Opened(File),
}

impl Reading<'_> {
    fn read(&mut self, buffer: &mut [u8]) -> io::Result<usize>
        ensures { ReadsAtMost result buffer.new }
    {
        match self {
            Reading::InTurn(file) => Read::read(file, buffer),
            Reading::Opened(file) => Read::read(file, buffer),
        }
    }
}

/// A file whose reading is reported.
#[derive(Drop)]
pub(crate) struct Watched<'o, 'p, 'r> {
    pub reading: Reading<'o>,
    pub progress: &'p Progress<'r>,
}

impl Read for Watched<'_, '_, '_> {
    fn read(&mut self, buf: &mut [u8]) -> io::Result<usize> {
        let read = self.reading.read(buf);
        self.progress.note(*read.as_ref().unwrap_or(&0));
        read
    }
}

impl Source for Watched<'_, '_, '_> {
    ghost may_have_failed = { λ _. true };

    fn read_some(&mut self, buffer: &mut [u8]) -> io::Result<usize> {
        read_past_signals(self, buffer)
    }
}
