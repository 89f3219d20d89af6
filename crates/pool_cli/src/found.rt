//! A second look at a file with an error, for the hints at a terminal.

use crate::fault::Fault;
use crate::files::is_regular;
use crate::line_kind::{LineKind, kind_of};
use pool_engines::{EngineFault, FileFault};
use pool_journal::LineFault;
use pool_settings::SettingsFault;
use std::fs;
use std::fs::File;
use std::io::{BufRead, BufReader};
use std::path::Path;

/// The findings at the position of an error.
#[derive(Clone, Copy, Debug)]
pub(crate) struct Found {
    /// The number of the line, from 1, if the line of the error does not state it.
    pub line: Option<u64>,
    /// The kind of that line. Of a settings file it is that of its first line.
    pub kind: Option<LineKind>,
}

/// Nothing is known but the error.
pub(crate) const NOTHING: Found = Found {
    line: None,
    kind: None,
};

/// Reads the file with an error again. Only a regular file can be read a second time.
pub(crate) fn look(rt: &HostRuntime, fault: &Fault<'_>) -> Found {
    match fault {
        Fault::Settings(path, FileFault::Text(SettingsFault::NotToml)) => {
            look_at_settings(rt, path).unwrap_or(NOTHING)
        }
        Fault::Engine(Some(path), EngineFault::Line(number, LineFault::NotALine)) => Found {
            line: None,
            kind: line_of(rt, path, *number).and_then(|line| kind_of(&line)),
        },
        _ => NOTHING,
    }
}

/// Finds the line at which a file stops being TOML.
fn look_at_settings(rt: &HostRuntime, path: &str) -> Option<Found> {
    if !is_regular(rt, Path::new(path)) {
        return None;
    }
    let text = fs::read_to_string(rt, path).ok()?;
    let error = toml::table_from_str(rt.alloc(), text.as_str()).err()?;
    let bytes = text.as_bytes();
    Some(Found {
        line: Some(line_number(bytes, error.span()?.start)),
        kind: kind_of(bytes),
    })
}

/// Returns the number, from 1, of the line with the byte at this index.
fn line_number(text: &[u8], index: usize) -> u64 {
    let mut number = 1u64;
    for byte in text.iter().take(index) {
        if *byte == b'\n' {
            number = number.saturating_add(1);
        }
    }
    number
}

/// Returns the line of this number, from 1, in the file at this path.
fn line_of(rt: &HostRuntime, path: &str, number: u64) -> Option<Vec<u8>> {
    if !is_regular(rt, Path::new(path)) {
        return None;
    }
    let file = File::open(rt, path).ok()?;
    let mut reader = BufReader::new(rt.alloc(), file).ok()?;
    let mut line = Vec::new(rt.alloc());
    for _ in 0..number {
        line.clear();
        if reader.read_until(b'\n', &mut line).ok()? == 0 {
            return None;
        }
    }
    Some(line)
}
