//! The commands of a script, and their words.

use crate::error::LineError;
use pool_host::{Hooks, Options, Report};

/// A command of a script.
#[derive(Clone, Copy, Debug)]
pub(crate) enum Command {
    /// Begins a call.
    Begin(Turn, Start),
    /// Goes on with a call.
    Report(Turn, Report),
    Cut,
    Journal,
}

/// The call that a command is for, and who goes on with it when.
#[derive(Clone, Copy, Debug)]
pub(crate) struct Turn {
    /// The slot of the call.
    pub(crate) slot: usize,
    /// The number of the caller.
    pub(crate) caller: u32,
    /// The time, in milliseconds.
    pub(crate) at: u64,
}

/// The kind of a call that begins, and the object that it is for.
#[derive(Clone, Copy, Debug)]
pub(crate) enum Start {
    Borrow,
    Return { id: u64, token: u64 },
    Invalidate { id: u64, token: u64 },
    Detach { id: u64, token: u64 },
    Touch { id: u64 },
    Add,
    Fill,
    Evict,
    Reclaim,
    Clear,
    Close,
}

/// Reads the words of a pool's line.
pub(crate) fn options_of(words: &[&str]) -> Result<Options, LineError> {
    match *words {
        [
            "pool",
            overtakes,
            millis,
            activates,
            validates,
            passivates,
            drops,
        ] => Ok(Options {
            max_overtakes: overtakes.parse()?,
            overtake_millis: millis.parse()?,
            hooks: Hooks {
                activates: flag_of(activates)?,
                validates: flag_of(validates)?,
                passivates: flag_of(passivates)?,
            },
            drops_journal: flag_of(drops)?,
        }),
        _ => Err(LineError::NotAPool),
    }
}

/// Reads the word `yes` or `no`.
fn flag_of(word: &str) -> Result<bool, LineError> {
    match word {
        "yes" => Ok(true),
        "no" => Ok(false),
        _ => Err(LineError::NotAPool),
    }
}

/// Reads the words of a command.
pub(crate) fn command_of(words: &[&str]) -> Result<Command, LineError> {
    match *words {
        ["report", slot, caller, at, report] => Ok(Command::Report(
            turn_of(slot, caller, at)?,
            report_of(report)?,
        )),
        ["report", slot, caller, at, "made", token] => Ok(Command::Report(
            turn_of(slot, caller, at)?,
            Report::Made(token.parse()?),
        )),
        ["touch", slot, caller, at, id] => Ok(Command::Begin(
            turn_of(slot, caller, at)?,
            Start::Touch { id: id.parse()? },
        )),
        [word, slot, caller, at] => {
            let start = start_of(word)?;
            Ok(Command::Begin(turn_of(slot, caller, at)?, start))
        }
        [word, slot, caller, at, id, token] => {
            let start = start_with_object(word, id.parse()?, token.parse()?)?;
            Ok(Command::Begin(turn_of(slot, caller, at)?, start))
        }
        ["cut"] => Ok(Command::Cut),
        ["journal"] => Ok(Command::Journal),
        _ => Err(LineError::NotACommand),
    }
}

fn turn_of(slot: &str, caller: &str, at: &str) -> Result<Turn, LineError> {
    Ok(Turn {
        slot: slot.parse()?,
        caller: caller.parse()?,
        at: at.parse()?,
    })
}

/// Reads the word of a call that is for no object.
fn start_of(word: &str) -> Result<Start, LineError> {
    match word {
        "borrow" => Ok(Start::Borrow),
        "add" => Ok(Start::Add),
        "fill" => Ok(Start::Fill),
        "evict" => Ok(Start::Evict),
        "reclaim" => Ok(Start::Reclaim),
        "clear" => Ok(Start::Clear),
        "close" => Ok(Start::Close),
        _ => Err(LineError::NotACommand),
    }
}

/// Reads the word of a call for an object and its token.
fn start_with_object(word: &str, id: u64, token: u64) -> Result<Start, LineError> {
    match word {
        "return" => Ok(Start::Return { id, token }),
        "invalidate" => Ok(Start::Invalidate { id, token }),
        "detach" => Ok(Start::Detach { id, token }),
        _ => Err(LineError::NotACommand),
    }
}

/// Reads a report of one word.
fn report_of(word: &str) -> Result<Report, LineError> {
    match word {
        "go-on" => Ok(Report::GoOn),
        "succeeded" => Ok(Report::Succeeded),
        "failed" => Ok(Report::Failed),
        "woken" => Ok(Report::Woken),
        "room-made" => Ok(Report::RoomMade),
        "no-room" => Ok(Report::NoRoom),
        "given-up" => Ok(Report::GivenUp),
        _ => Err(LineError::NotACommand),
    }
}
