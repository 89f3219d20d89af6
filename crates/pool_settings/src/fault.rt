//! Why a text has no settings, and the line of each such error.

use crate::escaped::Escaped;
use crate::key_name::KeyName;
use std::fmt;
use std::fmt::{Formatter, Write};

/// The error of a text that has no settings. A key of the table `abandoned` is printed as `abandoned.<key>`.
#[derive(Debug, Drop)]
pub enum SettingsFault {
    /// The text is no TOML document.
    NotToml,
    /// No setting has this key.
    UnknownKey(KeyName),
    /// The key's value isn't of its type.
    WrongType(&'static str),
    /// The key's number isn't in its range.
    OutOfRange(&'static str),
    /// An allocation failed.
    OutOfMemory,
}

/// Prints the error on one line.
impl fmt::Display for SettingsFault {
    ghost use Rattle.std.specs.Prelude.{Some};
    ghost use Rattle.pool_settings.specs.Faults.{fault_of};
    ghost use Rattle.pool_settings.specs.Messages.{text_of};

    ghost output = { λ fault. Some (text_of (fault_of fault)) };

    fn fmt<W: Write>(&self, f: &mut Formatter<W>) -> fmt::Result {
        match self {
            SettingsFault::NotToml => f.write_str("settings: not TOML"),
            SettingsFault::UnknownKey(key) => write!(f, "settings: unknown key {key}"),
            SettingsFault::WrongType(key) => write!(
                f,
                "settings: wrong type {}",
                Escaped::new(key)
            ),
            SettingsFault::OutOfRange(key) => write!(
                f,
                "settings: out of range {}",
                Escaped::new(key)
            ),
            SettingsFault::OutOfMemory => f.write_str("out of memory"),
        }
    }
}

impl std::error::Error for SettingsFault {}
