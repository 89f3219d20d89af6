//! Why the program did not do its task: the exit statuses, and the lines of the errors.
ghost use Rattle.std.specs.Prelude.{◌≡◌, ◌∷◌, ◌++◌, IfSome, OnOk};
ghost use Rattle.std.specs.Io.KnownBytes.{Appends};
ghost use Rattle.pool_settings.specs.Escaped.{IsOnOneLine};
ghost use Rattle.pool_cli.specs.Messages.{status_of, text_of};
ghost use Rattle.pool_cli.specs.Hints.{shown};

use crate::hint::Hint;
use pool_engines::{EngineFault, FileFault, LoadFault};
use pool_settings::Escaped;
use std::alloc::AllocError;
use std::fmt::Formatter;
use std::io::{ErrorKind, Write};
use std::{fmt, io};

const WRONG_ARGUMENTS: u8 = 2;

const FAULT: u8 = 3;

/// Why the program did not do its task.
#[derive(Debug, Drop)]
pub enum Fault<'a> {
    /// The arguments ask for nothing that the program does.
    WrongArguments,
    /// The arguments ask for help or for the version, which was printed.
    Asked,
    /// The numbers of a load are out of their ranges.
    WrongNumbers,
    /// There is no file at this path that may be read, or no memory to open it.
    Unopened(&'a str),
    OutOfMemory,
    /// No settings were read from the file at this path.
    Settings(&'a str, FileFault),
    /// The settings of the file at this path leave no room for the entries that are outstanding before it.
    NoRoom(&'a str),
    /// A journal or a script was not read to its end. The path is that of its file: there is none for standard input,
    /// and for an error of the output.
    Engine(Option<&'a str>, EngineFault),
    Load(LoadFault),
}

impl<'a> Fault<'a> {
    /// Returns the error of arguments that could not be read. Arguments that are not text are wrong.
    pub fn of_unread(cause: &io::Error) -> Fault<'a> {
        match cause.kind() {
            ErrorKind::OutOfMemory => Fault::OutOfMemory,
            _ => Fault::WrongArguments,
        }
    }

    /// Returns the exit status of the program.
    pub(crate) fn status(&self) -> u8
        ensures { result ≡ status_of self.now }
    {
        match self {
            Fault::WrongArguments | Fault::Asked | Fault::WrongNumbers => WRONG_ARGUMENTS,
            _ => FAULT,
        }
    }

    /// Writes the line of the error, and the hint after it. Control characters of a key or a path in the line are
    /// escaped.
    pub(crate) fn report<W: Write>(&self, hint: &Hint<'_>, writer: &mut W) -> io::Result<()>
        ensures line { OnOk result (IfSome (text_of self.now)
            (λ text. Appends (W.contents writer.old) (W.contents writer.new)
            (text ++ 10 ∷ shown hint.now))) }
        ensures one_line { IfSome (text_of self.now) IsOnOneLine }
    {
        write!(writer, "{self}\n{hint}")
    }
}

/// The line without its line feed.
impl fmt::Display for Fault<'_> {
    ghost output = { text_of };

    fn fmt<W: fmt::Write>(&self, f: &mut Formatter<W>) -> fmt::Result {
        match self {
            Fault::WrongArguments | Fault::Asked | Fault::WrongNumbers => {
                f.write_str("pool: wrong arguments")
            }
            Fault::Unopened(path) => write!(f, "pool: cannot open {}", Escaped::new(path)),
            Fault::OutOfMemory => f.write_str("pool: out of memory"),
            Fault::Settings(_, fault) => write!(f, "{fault}"),
            Fault::NoRoom(_) => f.write_str("pool: base: no room"),
            Fault::Engine(_, fault) => write!(f, "{fault}"),
            Fault::Load(fault) => write!(f, "{fault}"),
        }
    }
}

impl std::error::Error for Fault<'_> {}

/// Numbers out of their ranges are wrong arguments.
impl<'a> From<LoadFault> for Fault<'a> {
    fn from(fault: LoadFault) -> Fault<'a> {
        match fault {
            LoadFault::WorkerCount | LoadFault::RoundCount => Fault::WrongNumbers,
            _ => Fault::Load(fault),
        }
    }
}

impl<'a> From<AllocError> for Fault<'a> {
    fn from(_: AllocError) -> Fault<'a> {
        Fault::OutOfMemory
    }
}

/// Returns the result of an engine over the file at this path, or over a standard stream if there is no path.
pub fn engine_result<'a, T>(
    path: Option<&'a str>,
    ran: Result<T, EngineFault>,
) -> Result<T, Fault<'a>> {
    match ran {
        Ok(value) => Ok(value),
        Err(fault) => Err(Fault::Engine(path, fault)),
    }
}
