//! Help for a person, on lines after that of an error. It is printed at a terminal only.
ghost use Rattle.std.specs.Prelude.{◌≡◌, Some, option_map};
ghost use Rattle.std.specs.Fmt.{WritesOnOk};
ghost use Rattle.pool_cli.specs.Hints as Spec;

use crate::fault::Fault;
use crate::found::Found;
use crate::line_kind::LineKind;
use pool_engines::{EngineFault, FileFault, LoadFault};
use pool_journal::LineFault;
use pool_settings::{Escaped, SettingsFault};
use std::fmt;
use std::fmt::{Formatter, Write};

const FULL: &str = "a larger journalLimit in the settings makes room";

/// The facts that the line of an error does not state: the file with the error, the line there, and what to do.
#[derive(Clone, Copy, Debug)]
pub(crate) struct Hint<'a> {
    path: Option<&'a str>,
    line: Option<u64>,
    advice: Option<&'static str>,
}

const EMPTY: Hint<'static> = Hint {
    path: None,
    line: None,
    advice: None,
};

impl<'a> Hint<'a> {
    /// Returns the hint for an error, from the findings at its position. The hint is empty unless it is for a terminal.
    pub(crate) fn of(fault: &Fault<'a>, found: Found, is_terminal: bool) -> Hint<'a>
        ensures { Spec.shown result ≡ Spec.hint_of is_terminal fault.now found }
    {
        if is_terminal {
            Hint {
                path: path_of(fault),
                line: found.line,
                advice: advice_of(fault, found.kind),
            }
        } else {
            EMPTY
        }
    }

    /// Returns the hint that names a file. The hint is empty unless it is for a terminal.
    pub(crate) fn of_file(path: &'a str, is_terminal: bool) -> Hint<'a>
        ensures { Spec.shown result ≡ Spec.file_hint is_terminal path.now }
    {
        if is_terminal {
            Hint {
                path: Some(path),
                ..EMPTY
            }
        } else {
            EMPTY
        }
    }
}

/// The lines, each with its line feed.
impl fmt::Display for Hint<'_> {
    ghost output = { λ hint. Some (Spec.shown hint) };

    fn fmt<W: Write>(&self, f: &mut Formatter<W>) -> fmt::Result {
        write_place(f, self.path, self.line)?;
        write_advice(f, self.advice)
    }
}

fn write_place<W: Write>(f: &mut Formatter<W>, path: Option<&str>, line: Option<u64>) -> fmt::Result
    ensures { WritesOnOk W.write_str_gives f.old result
        (Spec.place_lines (option_map (λ text. text.now) path.entry) line) f.new }
{
    match (path, line) {
        (Some(path), Some(line)) => writeln!(f, "  in {}, line {line}", Escaped::new(path)),
        (Some(path), None) => writeln!(f, "  in {}", Escaped::new(path)),
        (None, _) => f.write_str(""),
    }
}

fn write_advice<W: Write>(f: &mut Formatter<W>, advice: Option<&'static str>) -> fmt::Result
    ensures { WritesOnOk W.write_str_gives f.old result
        (Spec.advice_lines (option_map (λ text. text.now) advice.entry)) f.new }
{
    match advice {
        Some(advice) => writeln!(f, "  {advice}"),
        None => f.write_str(""),
    }
}

/// Returns the path of the file with the error, unless the line of the error names it.
fn path_of<'a>(fault: &Fault<'a>) -> Option<&'a str>
    ensures { option_map (λ text. text.now) result ≡ Spec.path_of fault.now }
{
    match fault {
        Fault::Settings(path, fault) if is_of_file(fault) => Some(*path),
        Fault::Engine(path, fault) if is_of_journal(fault) => *path,
        Fault::NoRoom(path) => Some(*path),
        _ => None,
    }
}

/// Returns whether an error is one of the settings file, and not of memory.
fn is_of_file(fault: &FileFault) -> bool
    ensures { result ≡ Spec.is_of_file fault.now }
{
    !matches!(
        fault,
        FileFault::OutOfMemory | FileFault::Text(SettingsFault::OutOfMemory)
    )
}

/// Returns whether an error is one of the file that is read, and not of memory or of the output.
fn is_of_journal(fault: &EngineFault) -> bool
    ensures { result ≡ Spec.is_of_journal fault.now }
{
    !matches!(fault, EngineFault::OutOfMemory | EngineFault::Write)
}

fn advice_of(fault: &Fault<'_>, kind: Option<LineKind>) -> Option<&'static str>
    ensures { option_map (λ text. text.now) result ≡ Spec.advice_of fault.now kind }
{
    match fault {
        Fault::WrongArguments => Some("try pool --help"),
        Fault::WrongNumbers => Some("WORKERS is 1 to 1023, and ROUNDS is 1 to 1000000"),
        Fault::Settings(_, fault) => settings_advice(fault, kind),
        Fault::Engine(_, EngineFault::Line(_, fault)) => line_advice(fault, kind),
        Fault::Engine(_, EngineFault::Full(_)) | Fault::NoRoom(_) => Some(FULL),
        Fault::Load(LoadFault::JournalFull) => Some(FULL),
        _ => None,
    }
}

fn settings_advice(fault: &FileFault, kind: Option<LineKind>) -> Option<&'static str>
    ensures { option_map (λ text. text.now) result ≡ Spec.settings_advice fault.now kind }
{
    match (fault, kind) {
        (FileFault::NotUtf8, _) => Some("settings are UTF-8"),
        (FileFault::Text(SettingsFault::NotToml), Some(LineKind::CarriageReturn)) => None,
        (FileFault::Text(SettingsFault::NotToml), Some(_)) => {
            Some("this is a script or a journal: SETTINGS comes first")
        }
        _ => None,
    }
}

fn line_advice(fault: &LineFault, kind: Option<LineKind>) -> Option<&'static str>
    ensures { option_map (λ text. text.now) result ≡ Spec.line_advice fault.now kind }
{
    match fault {
        LineFault::LineTooLong => Some("a line has at most 256 bytes"),
        LineFault::NotALine => kind_advice(kind),
        LineFault::BadNumber => {
            Some("a number has no leading zero, and a caller is at most 4294967295")
        }
        LineFault::Truncated => Some("the file ends within a line, or within its base"),
        LineFault::OutOfMemory => None,
    }
}

fn kind_advice(kind: Option<LineKind>) -> Option<&'static str>
    ensures { option_map (λ text. text.now) result ≡ Spec.kind_advice kind }
{
    match kind {
        Some(LineKind::Head) => {
            Some("a segment begins here: pool check takes each segment as a file of its own")
        }
        Some(LineKind::Request) => {
            Some("this line of a script has no answer: pool run plays a script")
        }
        Some(LineKind::Entry) => {
            Some("this line of a journal has an answer: pool check and pool stats take a journal")
        }
        Some(LineKind::CarriageReturn) => {
            Some(
                "this line ends with a carriage return and a line feed, and not with a line feed alone",
            )
        }
        None => None,
    }
}
