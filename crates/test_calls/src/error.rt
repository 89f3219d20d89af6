//! Why a script was not played to its end: the exit statuses, and the errors of lines.

use pool_settings::SettingsFault;
use std::alloc::AllocError;
use std::io;
use std::io::ErrorKind;
use std::num::ParseIntError;
use thiserror::Error;

const WRONG_SCRIPT: u8 = 2;

const FAULT: u8 = 3;

/// Why a line of a script cannot be played.
#[derive(Clone, Copy, Debug, Error)]
pub(crate) enum LineError {
    #[error("not a command")]
    NotACommand,
    #[error("not the line of a pool")]
    NotAPool,
    #[error("bad number")]
    BadNumber,
    #[error("no such slot")]
    NoSlot,
    /// The call in the slot is not over.
    #[error("the slot is taken")]
    SlotTaken,
    #[error("no call in the slot")]
    NoCall,
}

impl From<ParseIntError> for LineError {
    fn from(_: ParseIntError) -> LineError {
        LineError::BadNumber
    }
}

/// Why a script was not played to its end.
#[derive(Debug, Drop, Error)]
pub(crate) enum ScriptError {
    #[error("{0}")]
    Settings(SettingsFault),
    /// The line with this number, from 1, cannot be played.
    #[error("line {0}: {1}")]
    Line(u64, LineError),
    #[error("read or write failed")]
    Stream,
    #[error("out of memory")]
    OutOfMemory,
}

impl ScriptError {
    /// Returns the exit status of the program.
    pub(crate) fn status(&self) -> u8 {
        match self {
            ScriptError::Settings(SettingsFault::OutOfMemory) => FAULT,
            ScriptError::Settings(_) | ScriptError::Line(_, _) => WRONG_SCRIPT,
            ScriptError::Stream | ScriptError::OutOfMemory => FAULT,
        }
    }
}

impl From<SettingsFault> for ScriptError {
    fn from(fault: SettingsFault) -> ScriptError {
        ScriptError::Settings(fault)
    }
}

impl From<AllocError> for ScriptError {
    fn from(_: AllocError) -> ScriptError {
        ScriptError::OutOfMemory
    }
}

impl From<io::Error> for ScriptError {
    fn from(cause: io::Error) -> ScriptError {
        match cause.kind() {
            ErrorKind::OutOfMemory => ScriptError::OutOfMemory,
            _ => ScriptError::Stream,
        }
    }
}
