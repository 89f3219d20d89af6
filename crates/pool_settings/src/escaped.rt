//! A text on one line, with its control characters escaped as in TOML.
ghost use Rattle.std.specs.Prelude.{◌≡◌, ◌<◌, true, Some, chars};
ghost use Rattle.std.specs.Fmt.{WritesOnOk, digit_glyph};
ghost use Rattle.std.specs.List.{flat_map};
ghost use Rattle.toml_writer.specs.Text.{escape_letter, escape_text};
ghost use Rattle.pool_settings.specs.Escaped as Spec;

use std::fmt;
use std::fmt::{Formatter, Write};

/// A text as it is printed on one line. If it has a control character (U+0000 to U+001F, U+007F to U+009F), each
/// control character and each backslash is printed as in a basic string of TOML (`\n`, `\u001B`, `\\`). All else is
/// unchanged.
#[derive(Clone, Copy, Debug)]
pub struct Escaped<'a> {
    text: &'a str,
}

impl<'a> Escaped<'a> {
    /// Returns the text, to be printed on one line.
    pub fn new(text: &'a str) -> Escaped<'a>
        ensures text { Spec.shown result ≡ Spec.escaped text.now }
        ensures one_line { Spec.IsOnOneLine (Spec.shown result) }
    {
        Escaped { text }
    }
}

impl fmt::Display for Escaped<'_> {
    ghost output = { λ e. Some (Spec.shown e) };

    fn fmt<W: Write>(&self, f: &mut Formatter<W>) -> fmt::Result {
        if has_control(self.text) {
            write_escaped(f, self.text)
        } else {
            f.write_str(self.text)
        }
    }
}

fn has_control(text: &str) -> bool
    ensures { result ≡ Spec.has_control text.now }
{
    for c in text.chars() {
        if c.is_control() {
            return true;
        }
    }
    false
}

/// Writes the text with its control characters and backslashes escaped.
fn write_escaped<W: Write>(f: &mut Formatter<W>, text: &str) -> fmt::Result
    ensures { WritesOnOk W.write_str_gives f.old result (flat_map Spec.escape (chars text.now)) f.new }
{
    for c in text.chars() {
        write_one(f, c)?;
    }
    Ok(())
}

fn write_one<W: Write>(f: &mut Formatter<W>, c: char) -> fmt::Result
    ensures { WritesOnOk W.write_str_gives f.old result (Spec.escape c) f.new }
{
    if c.is_control() || c == '\\' {
        write_escape(f, c as u32 as u8)
    } else {
        f.write_char(c)
    }
}

fn write_escape<W: Write>(f: &mut Formatter<W>, byte: u8) -> fmt::Result
    ensures { WritesOnOk W.write_str_gives f.old result (escape_text byte) f.new }
{
    let letter = letter_of(byte);
    if letter == 0 {
        f.write_str("\\u00")?;
        f.write_char(hex_digit(byte / 16))?;
        f.write_char(hex_digit(byte % 16))
    } else {
        f.write_str("\\")?;
        f.write_char(char::from(letter))
    }
}

/// Returns the letter of a short escape, or 0 if there is none.
fn letter_of(byte: u8) -> u8
    ensures value { result ≡ escape_letter byte }
    ensures ascii { result < 128 }
{
    match byte {
        0x8 => b'b',
        0x9 => b't',
        0xa => b'n',
        0xc => b'f',
        0xd => b'r',
        b'"' | b'\\' => byte,
        _ => 0,
    }
}

fn hex_digit(digit: u8) -> char
    requires { digit < 16 }
    ensures value { result ≡ digit_glyph true digit }
    ensures ascii { result < 128 }
{
    char::from(if digit < 10 {
        b'0' + digit
    } else {
        b'A' - 10 + digit
    })
}
