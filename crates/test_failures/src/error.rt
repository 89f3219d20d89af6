//! Why a life failed its test.

use std::fmt;
use std::fmt::Display;

/// The error of a life that failed its test.
#[derive(Clone, Copy)]
pub enum LifeError {
    /// A call had an impossible result.
    WrongAnswer,
    /// A call left an object half-processed, or at the end an object is present.
    LeftBehind,
    /// An object that was lent is neither lent nor reclaimed.
    TakenAway,
    /// A new core has other answers than the journal.
    AnswersDiffer,
    /// A new core has another base than the journal.
    BasesDiffer,
    /// A new core has other counts.
    CountsDiffer,
    CallerMissing,
    OutOfMemory,
}

impl Display for LifeError {
    fn fmt<W: fmt::Write>(&self, f: &mut fmt::Formatter<W>) -> fmt::Result {
        f.write_str(match self {
            LifeError::WrongAnswer => "a wrong answer",
            LifeError::LeftBehind => "an object is left behind",
            LifeError::TakenAway => "a lent object was taken away",
            LifeError::AnswersDiffer => "a new core answers otherwise",
            LifeError::BasesDiffer => "a new core comes to another base",
            LifeError::CountsDiffer => "a new core counts otherwise",
            LifeError::CallerMissing => "a caller is missing",
            LifeError::OutOfMemory => "out of memory",
        })
    }
}
