//! Why the program printed no base: the exit statuses, and the lines of the errors.
ghost use Rattle.std.specs.Prelude.{◌≡◌, Some};
ghost use Rattle.std.specs.Fmt.{WritesOnOk};
ghost use Rattle.judge.specs.Messages as Spec;

use pool_core::BaseFault;
use pool_engines::{EngineFault, FileFault, SegmentFault};
use pool_journal::LineFault;
use pool_settings::Escaped;
use std::alloc::{AllocError, AllocFailed};
use std::fmt::{Formatter, Write};
use std::io::ErrorKind;
use std::{fmt, io};

const ILLEGAL: u8 = 1;

const WRONG_ARGUMENTS: u8 = 2;

const FAULT: u8 = 3;

/// Why the program printed no base. A path is that of the file with the error.
#[derive(Debug, Drop)]
pub(crate) enum JudgeError<'a> {
    WrongArguments,
    /// No file at this path can be opened.
    Unopened(&'a str),
    Settings(&'a str, FileFault),
    Segment(&'a str, SegmentFault),
    /// The folder at this path has segments, and no settings for the first of them.
    NoSettings(&'a str),
    /// The folder at this path has no segment.
    NoSegments(&'a str),
    /// The folder at this path has no journal, and no folder with one.
    NoStart(&'a str),
    /// The segment at this path has no position in its name.
    NoPosition(&'a str),
    /// The segment at this path begins with no base.
    NotABase(&'a str),
    /// Not one whole base was printed of the segment at this path, or it can't be read.
    Damaged(&'a str),
    /// The file of the start in the folder at this path has no time of day.
    NoZero(&'a str),
    /// The verdict on a journal whose segment at this path is not legal.
    NotLegal(&'a str, &'a str),
    NotWritten,
    OutOfMemory,
}

impl<'a> JudgeError<'a> {
    /// Returns the error for arguments that were not read: those that are not text name no file.
    pub(crate) fn of_arguments(cause: &io::Error) -> JudgeError<'a> {
        match cause.kind() {
            ErrorKind::OutOfMemory => JudgeError::OutOfMemory,
            _ => JudgeError::WrongArguments,
        }
    }

    /// Returns the error for a folder that was not read.
    pub(crate) fn of_folder(path: &'a str, cause: &io::Error) -> JudgeError<'a> {
        match cause.kind() {
            ErrorKind::OutOfMemory => JudgeError::OutOfMemory,
            _ => JudgeError::Unopened(path),
        }
    }

    /// Returns the error for a segment that was not read.
    pub(crate) fn of_read(path: &'a str, cause: &io::Error) -> JudgeError<'a> {
        JudgeError::Segment(
            path,
            SegmentFault::Engine(match cause.kind() {
                ErrorKind::OutOfMemory => EngineFault::OutOfMemory,
                _ => EngineFault::Read,
            }),
        )
    }

    /// Returns the error for the base that was printed of the segment at this path, which was not read.
    pub(crate) fn of_printed(path: &'a str, cause: &io::Error) -> JudgeError<'a> {
        match cause.kind() {
            ErrorKind::OutOfMemory => JudgeError::OutOfMemory,
            _ => JudgeError::Damaged(path),
        }
    }

    /// Returns the exit status of the program.
    pub(crate) fn status(&self) -> u8
        ensures { result ≡ Spec.status_of self.now }
    {
        match self {
            JudgeError::WrongArguments => WRONG_ARGUMENTS,
            JudgeError::NotLegal(_, _) => ILLEGAL,
            JudgeError::Segment(_, SegmentFault::Illegal(_)) => ILLEGAL,
            JudgeError::Segment(_, SegmentFault::Base(BaseFault::NotABase)) => ILLEGAL,
            _ => FAULT,
        }
    }
}

/// The line without its line feed.
impl fmt::Display for JudgeError<'_> {
    ghost output = { λ fault. Some (Spec.text_of fault) };

    fn fmt<W: Write>(&self, f: &mut Formatter<W>) -> fmt::Result {
        match self {
            JudgeError::WrongArguments => f.write_str("judge: wrong arguments, try judge --help"),
            JudgeError::Unopened(path) => write!(f, "judge: cannot open {}", Escaped::new(path)),
            JudgeError::Settings(path, fault) => {
                write!(f, "judge: {}: ", Escaped::new(path))?;
                write_settings_fault(f, fault)
            }
            JudgeError::Segment(path, fault) => {
                write!(f, "judge: {}: ", Escaped::new(path))?;
                write_segment_fault(f, fault)
            }
            JudgeError::NotLegal(path, verdict) => {
                write!(f, "judge: {}: {verdict}", Escaped::new(path))
            }
            JudgeError::NotWritten => f.write_str("judge: write failed"),
            JudgeError::OutOfMemory => f.write_str("judge: out of memory"),
            JudgeError::NoSettings(path)
            | JudgeError::NoSegments(path)
            | JudgeError::NoStart(path)
            | JudgeError::NoPosition(path)
            | JudgeError::NotABase(path)
            | JudgeError::Damaged(path)
            | JudgeError::NoZero(path) => {
                write!(f, "judge: {}: {}", Escaped::new(path), lack_of(self))
            }
        }
    }
}

/// Returns what a file or a folder lacks.
fn lack_of(error: &JudgeError<'_>) -> &'static str
    ensures { result.now ≡ Spec.lack_of error.now }
{
    match error {
        JudgeError::NoSettings(_) => "no settings.toml",
        JudgeError::NoSegments(_) => "no segments",
        JudgeError::NoStart(_) => "no settings.toml, and no folder with one",
        JudgeError::NoPosition(_) => "no position in the name",
        JudgeError::NotABase(_) => "not a base",
        JudgeError::Damaged(_) => "what it reached is not one base",
        JudgeError::NoZero(_) => "no time of day in start.toml",
        _ => "",
    }
}

impl std::error::Error for JudgeError<'_> {}

/// The value could not be stored.
impl<'a, T: Drop> From<AllocFailed<T>> for JudgeError<'a> {
    fn from(_: AllocFailed<T>) -> JudgeError<'a> {
        JudgeError::OutOfMemory
    }
}

impl<'a> From<AllocError> for JudgeError<'a> {
    fn from(_: AllocError) -> JudgeError<'a> {
        JudgeError::OutOfMemory
    }
}

fn write_settings_fault<W: Write>(f: &mut Formatter<W>, fault: &FileFault) -> fmt::Result
    ensures { WritesOnOk W.write_str_gives f.old result (Spec.settings_text fault.now) f.new }
{
    match fault {
        FileFault::Read => f.write_str("read failed"),
        FileFault::OutOfMemory => f.write_str("out of memory"),
        FileFault::TooLong => f.write_str("settings: too long"),
        FileFault::NotUtf8 => f.write_str("settings: not TOML"),
        FileFault::Text(fault) => write!(f, "{fault}"),
    }
}

fn write_segment_fault<W: Write>(f: &mut Formatter<W>, fault: &SegmentFault) -> fmt::Result
    ensures { WritesOnOk W.write_str_gives f.old result (Spec.segment_text fault.now) f.new }
{
    match fault {
        SegmentFault::Base(fault) => write!(f, "base: {}", base_text(fault)),
        SegmentFault::Illegal(position) => write!(f, "illegal {position}"),
        SegmentFault::Unopened => f.write_str("cannot open"),
        SegmentFault::Engine(fault) => write_engine_fault(f, fault),
    }
}

fn base_text(fault: &BaseFault) -> &'static str
    ensures { result.now ≡ Spec.base_text fault.now }
{
    match fault {
        BaseFault::NotABase => "not a base",
        BaseFault::WrongValues => "wrong values",
        BaseFault::NoRoom => "no room",
        BaseFault::OutOfMemory => "out of memory",
    }
}

fn write_engine_fault<W: Write>(f: &mut Formatter<W>, fault: &EngineFault) -> fmt::Result
    ensures { WritesOnOk W.write_str_gives f.old result (Spec.engine_text fault.now) f.new }
{
    match fault {
        EngineFault::Line(number, fault) => write!(f, "line {number}: {}", line_text(fault)),
        EngineFault::Full(number) => write!(f, "line {number}: journal full"),
        EngineFault::OutOfMemory => f.write_str("out of memory"),
        EngineFault::Read => f.write_str("read failed"),
        EngineFault::Write => f.write_str("write failed"),
    }
}

fn line_text(fault: &LineFault) -> &'static str
    ensures { result.now ≡ Spec.line_text fault.now }
{
    match fault {
        LineFault::LineTooLong => "line too long",
        LineFault::NotALine => "not a line",
        LineFault::BadNumber => "bad number",
        LineFault::Truncated => "truncated",
        LineFault::OutOfMemory => "out of memory",
    }
}
