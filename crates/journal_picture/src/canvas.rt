//! The text of a picture, and values in it.
ghost use Rattle.std.specs.Prelude.{◌≡◌, count_by, eqb, length};

use crate::colours::Fill;
use journal_tools::{CallerName, Callers};
use pool_journal::Phase;
use std::io::Write;
use std::{fmt, io};

/// A value in a text whose values are not all numbers.
#[derive(Clone, Copy)]
pub(crate) enum Value<'a> {
    Number(u64),
    Text(&'a str),
    Phase(Phase),
    Fill(Fill),
    Caller(CallerName<'a>),
    /// The same in a column: at most `LONGEST` characters of its name, or its number.
    Column(CallerName<'a>),
}

/// The most characters of a name in a column.
pub(crate) const LONGEST: usize = 12;

impl fmt::Display for Value<'_> {
    fn fmt<W: fmt::Write>(&self, f: &mut fmt::Formatter<W>) -> fmt::Result {
        match self {
            Value::Number(number) => write!(f, "{number}"),
            Value::Text(text) => f.write_str(text),
            Value::Phase(phase) => write!(f, "{phase:?}"),
            Value::Fill(fill) => write!(f, "{fill}"),
            Value::Caller(caller) => match caller.name {
                Some(name) => write_name(f, name, usize::MAX),
                None => write!(f, "{caller}"),
            },
            Value::Column(caller) => match caller.name {
                Some(name) => write_name(f, name, LONGEST),
                None => write!(f, "{}", caller.number),
            },
        }
    }
}

/// Writes up to `most` characters of a name, as XML has them in a text.
fn write_name<W: fmt::Write>(f: &mut fmt::Formatter<W>, name: &str, most: usize) -> fmt::Result {
    for c in name.chars().take(most) {
        match c {
            '&' => f.write_str("&amp;")?,
            '<' => f.write_str("&lt;")?,
            '>' => f.write_str("&gt;")?,
            '\u{fffe}' | '\u{ffff}' => f.write_str("?")?,
            _ if c.is_control() => f.write_str("?")?,
            _ => f.write_char(c)?,
        }
    }
    Ok(())
}

/// A picture that is being written. It keeps the error of the first write that fails, and then writes nothing more.
/// `finish` returns that error, so functions that draw have no `?`.
pub(crate) struct Canvas<'a, W: Write> {
    out: &'a mut W,
    callers: &'a Callers,
    result: io::Result<()>,
}

impl<'a, W: Write> Canvas<'a, W> {
    /// Returns a canvas that writes to `out`. Callers have these names.
    pub(crate) fn new(out: &'a mut W, callers: &'a Callers) -> Canvas<'a, W> {
        Canvas {
            out,
            callers,
            result: Ok(()),
        }
    }

    /// Returns a caller, with its name.
    pub(crate) fn caller(&self, number: u32) -> CallerName<'a> {
        self.callers.name(number)
    }

    /// Writes a text with a value in place of each `{}`, in their order. Each `{` is counted as a place.
    pub(crate) fn put<V: fmt::Display>(&mut self, pattern: &str, values: &[V])
        requires placed { count_by (eqb 123) pattern.now ≡ length values.now }
    {
        if self.result.is_ok() {
            self.result = write_pattern(self.out, pattern, values);
        }
    }

    /// Writes a text.
    pub(crate) fn text(&mut self, text: &str) {
        if self.result.is_ok() {
            self.result = self.out.write_all(text.as_bytes());
        }
    }

    /// Writes the name of a variant.
    pub(crate) fn name<D: fmt::Debug>(&mut self, variant: &D) {
        if self.result.is_ok() {
            self.result = write!(self.out, "{variant:?}");
        }
    }

    /// Ends the picture. Returns the error of the first write that failed.
    pub(crate) fn finish(self) -> io::Result<()> {
        let Canvas {
            out: _,
            callers: _,
            result,
        } = self;
        result
    }
}

/// Writes a text with values in it. A function that writes many values takes several times as long to prove with
/// `write!`, since each value is then a part of the type of what is written.
fn write_pattern<W: Write, V: fmt::Display>(
    out: &mut W,
    pattern: &str,
    values: &[V],
) -> io::Result<()> {
    let mut rest = values.iter();
    for text in pattern.split("{}") {
        out.write_all(text.as_bytes())?;
        if let Some(value) = rest.next() {
            write!(out, "{value}")?;
        }
    }
    Ok(())
}
