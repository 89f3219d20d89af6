//! The output of the program on wrong arguments and on errors.

use crate::fault::Fault;
use crate::found::{NOTHING, look};
use crate::help::{USES, VERSION, asks_for_help, asks_for_version};
use crate::hint::Hint;
use std::io::{IsTerminal, Write};
use std::process::ExitCode;

/// Returns the error of wrong arguments. If they ask for help or for the version, writes the uses or the version first,
/// and ignores a failed write.
pub fn refuse<'a>(rt: &HostRuntime, arguments: &[String]) -> Fault<'a> {
    let answer = if asks_for_help(arguments) {
        USES
    } else if asks_for_version(arguments) {
        VERSION
    } else {
        return Fault::WrongArguments;
    };
    let _ = rt.stdout().write_all(answer.as_bytes());
    Fault::Asked
}

/// Prints the error on standard error, with a hint if that is a terminal, and returns the exit status. A failed write
/// is ignored.
pub fn report(rt: &HostRuntime, fault: &Fault<'_>) -> ExitCode {
    let is_terminal = rt.stderr().is_terminal();
    let found = if is_terminal {
        look(rt, fault)
    } else {
        NOTHING
    };
    let hint = Hint::of(fault, found, is_terminal);
    let _ = fault.report(&hint, &mut rt.stderr());
    ExitCode::from(fault.status())
}
