//! The names of callers, as the folder of a journal has them.

use std::alloc::{AllocError, Global};
use std::collections::HashMap;
use std::fmt::Formatter;
use std::io::ErrorKind;
use std::path::Path;
use std::str::from_utf8;
use std::{fmt, fs};

/// The file of the names.
const FILE: &str = "callers.txt";

/// The names of callers, by their numbers.
#[derive(Drop)]
pub struct Callers {
    names: HashMap<u32, String>,
}

impl Callers {
    /// Returns callers without names.
    pub fn none(alloc: Global) -> Callers {
        Callers {
            names: HashMap::new(alloc),
        }
    }

    /// Reads the names in a folder: the file `callers.txt` has a line `<number> <name>` for each. A file that is missing or
    /// cannot be read has none, and so has a line of another form, or one without a line feed. If a number has several
    /// names, the last counts.
    pub fn in_folder(rt: &HostRuntime, folder: Path<'_>) -> Result<Callers, AllocError> {
        let path = folder.join(rt.alloc(), FILE)?;
        match fs::read(rt, path.as_path()) {
            Ok(text) => Callers::read(rt.alloc(), &text),
            Err(cause) if cause.kind() == ErrorKind::OutOfMemory => Err(AllocError),
            Err(_) => Ok(Callers::none(rt.alloc())),
        }
    }

    /// Reads the lines of the names.
    fn read(alloc: Global, text: &[u8]) -> Result<Callers, AllocError> {
        let mut callers = Callers::none(alloc);
        for line in text.split_inclusive(|byte| *byte == b'\n') {
            if let Some((number, name)) = entry_in(line) {
                callers
                    .names
                    .insert(number, String::from_str(alloc, name)?)?;
            }
        }
        Ok(callers)
    }

    /// Returns a caller, to be printed by its name, or as `caller <number>` if it has none.
    pub fn name(&self, number: u32) -> CallerName<'_> {
        CallerName {
            number,
            name: self.names.get(&number).map(|name| name.as_str()),
        }
    }
}

/// Returns the number and the name that a line has.
fn entry_in(line: &[u8]) -> Option<(u32, &str)> {
    let line = from_utf8(line).ok()?.strip_suffix('\n')?;
    let (number, name) = line.split_once(' ')?;
    Some((number.parse::<u32>().ok()?, name))
}

/// A caller, printed by its name, or as `caller <number>` if it has none.
#[derive(Clone, Copy, Debug)]
pub struct CallerName<'a> {
    pub number: u32,
    pub name: Option<&'a str>,
}

impl fmt::Display for CallerName<'_> {
    fn fmt<W: fmt::Write>(&self, f: &mut Formatter<W>) -> fmt::Result {
        match self.name {
            Some(name) => f.write_str(name),
            None => write!(f, "caller {}", self.number),
        }
    }
}
