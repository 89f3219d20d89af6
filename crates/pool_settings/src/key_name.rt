//! The name of a key as errors print it, with that of its table.
ghost use Rattle.std.specs.Prelude.{◌≡◌, ℕ, List, ◌++◌, IfOk, string_bytes};

use crate::escaped::Escaped;
use std::alloc::{AllocError, Global};
use std::fmt;
use std::fmt::Formatter;
use std::marker::Model;

/// The name of a key, as its text.
#[derive(Debug, Drop)]
pub struct KeyName {
    text: String,
}

impl Model for KeyName {
    ghost Value = { List ℕ };

    ghost view = { λ name. string_bytes name.text };
}

impl KeyName {
    /// Returns the name of a key in a table whose keys are printed with this prefix.
    pub(crate) fn new(alloc: Global, prefix: &str, key: &str) -> Result<KeyName, AllocError>
        ensures { IfOk result (λ name. name ≡ prefix.now ++ key.now) }
    {
        let mut text = String::from_str(alloc, prefix)?;
        text.push_str(key)?;
        Ok(KeyName { text })
    }

    /// Returns the name's text.
    pub fn as_str(&self) -> &str
        ensures { result.now ≡ self.now }
    {
        self.text.as_str()
    }
}

/// Prints the name on one line.
impl fmt::Display for KeyName {
    ghost use Rattle.std.specs.Prelude.{Some};
    ghost use Rattle.pool_settings.specs.Escaped.{escaped};

    ghost output = { λ name. Some (escaped name) };

    fn fmt<W: fmt::Write>(&self, f: &mut Formatter<W>) -> fmt::Result {
        Escaped::new(self.as_str()).fmt(f)
    }
}
