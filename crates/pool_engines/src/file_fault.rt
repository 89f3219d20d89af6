//! Why no settings were read from a file, and the line of each such error.

use pool_settings::SettingsFault;
use std::fmt;
use std::fmt::{Formatter, Write};

/// Why no settings were read from a file.
#[derive(Debug, Drop)]
pub enum FileFault {
    /// A read failed.
    Read,
    /// There was no memory for the file's bytes.
    OutOfMemory,
    /// The file has more than 1,048,576 bytes.
    TooLong,
    /// The file isn't UTF-8.
    NotUtf8,
    /// The text is not a settings text, or there was no memory for reading it.
    Text(SettingsFault),
}

/// The error on one line.
impl fmt::Display for FileFault {
    ghost use Rattle.std.specs.Prelude.{Some};
    ghost use Rattle.pool_engines.specs.Messages.{file_text};

    ghost output = { λ fault. Some (file_text fault) };

    fn fmt<W: Write>(&self, f: &mut Formatter<W>) -> fmt::Result {
        match self {
            FileFault::Read => f.write_str("pool: read failed"),
            FileFault::OutOfMemory => f.write_str("pool: out of memory"),
            FileFault::TooLong => f.write_str("pool: settings: too long"),
            FileFault::NotUtf8 => f.write_str("pool: settings: not TOML"),
            FileFault::Text(fault) => write!(f, "pool: {fault}"),
        }
    }
}

impl std::error::Error for FileFault {}
