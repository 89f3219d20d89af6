//! Why no picture was drawn: the exit statuses, and the lines of the errors.

use crate::joint::Break;
use pool_journal::LineFault;
use pool_settings::Escaped;
use std::alloc::AllocError;
use std::fmt::Formatter;
use std::io::ErrorKind;
use std::{fmt, io};
use thiserror::Error;

const WRONG_ARGUMENTS: u8 = 2;

const FAULT: u8 = 3;

/// Why a file was not read.
#[derive(Clone, Copy, Debug, Error)]
pub(crate) enum Cause {
    #[error("cannot open the journal")]
    NotOpened,
    #[error("read failed")]
    NotRead,
    /// The line with this number, from 1, is none of a journal.
    #[error("line {0}: {1}")]
    Line(u64, LineFault),
    /// The segment whose first line, or whose object, is at this line does not continue the one before it.
    #[error("line {0}: the segment does not begin where the one before it ends: {1}")]
    Segment(u64, Break),
    #[error("out of memory")]
    OutOfMemory,
}

/// Why no picture was drawn.
#[derive(Clone, Copy, Debug)]
pub(crate) enum PictureError<'a> {
    WrongArguments,
    /// The file at this path was not read.
    Journal(&'a str, Cause),
    NotWritten,
    OutOfMemory,
}

impl<'a> PictureError<'a> {
    /// Returns the error for arguments that were not read: those that are not text name no file.
    pub(crate) fn of_arguments(cause: &io::Error) -> PictureError<'a> {
        match cause.kind() {
            ErrorKind::OutOfMemory => PictureError::OutOfMemory,
            _ => PictureError::WrongArguments,
        }
    }

    /// Returns the exit status of the program.
    pub(crate) fn status(&self) -> u8 {
        match self {
            PictureError::WrongArguments => WRONG_ARGUMENTS,
            _ => FAULT,
        }
    }
}

impl fmt::Display for PictureError<'_> {
    fn fmt<W: fmt::Write>(&self, f: &mut Formatter<W>) -> fmt::Result {
        match self {
            PictureError::WrongArguments => f.write_str(
                "wrong arguments; try journal_picture --help",
            ),
            PictureError::Journal(path, cause) => write!(f, "{}: {cause}", Escaped::new(path)),
            PictureError::NotWritten => f.write_str("write failed"),
            PictureError::OutOfMemory => f.write_str("out of memory"),
        }
    }
}

impl std::error::Error for PictureError<'_> {}

impl<'a> From<AllocError> for PictureError<'a> {
    fn from(_: AllocError) -> PictureError<'a> {
        PictureError::OutOfMemory
    }
}

impl From<AllocError> for Cause {
    fn from(_: AllocError) -> Cause {
        Cause::OutOfMemory
    }
}

/// A read failed.
impl From<io::Error> for Cause {
    fn from(_: io::Error) -> Cause {
        Cause::NotRead
    }
}
