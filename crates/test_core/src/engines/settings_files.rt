//! Settings files that are read, too long, or not text. tests/cases/settings has texts with errors.

use crate::engines::outcomes::is;
use crate::engines::read_settings;
use crate::engines::streams::{Failing, Pieces};
use pool_engines::{FileFault, Source};
use pool_settings::Settings;
use std::alloc::Global;
use std::cell::Cell;
use std::process::Abort;

const MOST: usize = 1_048_576;

/// Returns the message of a file that is not read, and `read` for one that is.
fn reported<R: Source>(rt: &impl Abort, alloc: Global, reader: &mut R) -> String {
    let reported = match read_settings(alloc, reader) {
        Ok(_) => String::from_str(alloc, "read"),
        Err(fault) => format!(in alloc; "{fault}"),
    };
    reported.expect(rt, "the message for a file")
}

/// Returns whether the settings of a file allow three objects.
pub fn says_three(answer: &Result<Settings, FileFault>) -> bool {
    match answer {
        Ok(settings) => settings.max_total() == 3,
        Err(_) => false,
    }
}

fn read(rt: &impl Abort, alloc: Global, text: &str) -> Settings {
    match read_settings(alloc, &mut text.as_bytes()) {
        Ok(settings) => settings,
        Err(_) => panic!(rt; "at {text}"),
    }
}

/// Returns a file of this length that sets the number of objects.
fn file_of(rt: &impl Abort, alloc: Global, length: usize) -> Vec<u8> {
    let line = Vec::from_slice(alloc, b"maxTotal = 3\n");
    let mut bytes = line.expect(rt, "the line of a file");
    bytes.resize(length, b'\n').expect(rt, "a file");
    bytes
}

#[test]
fn files_say_settings(rt: HostRuntime) {
    let wanted = Settings {
        lifo: false,
        max_total: -1,
        ..Settings::default()
    };
    let found = read(&rt, rt.alloc(), "maxTotal = -1\nlifo = false\n");
    let none = read(&rt, rt.alloc(), "");
    is(&rt, [none, found], [Settings::default(), wanted]);
}

#[test]
fn long_files_are_refused(rt: HostRuntime) {
    let mut too_long = file_of(&rt, rt.alloc(), MOST + 1);
    let answer = read_settings(rt.alloc(), &mut too_long.as_slice());
    assert!(rt; matches!(answer, Err(FileFault::TooLong)));

    too_long.push(0xff).expect(&rt, "one byte more");
    let mut rest = too_long.as_slice();
    let answer = reported(&rt, rt.alloc(), &mut rest);
    let wanted = ("pool: settings: too long", [0xff].as_slice());
    is(&rt, (answer.as_str(), rest), wanted);
}

#[test]
fn files_that_are_not_text_are_refused(rt: HostRuntime) {
    let bytes = b"maxTotal = 3 # \xff";
    let answer = read_settings(rt.alloc(), &mut bytes.as_slice());
    assert!(rt; matches!(answer, Err(FileFault::NotUtf8)));
    let answer = reported(&rt, rt.alloc(), &mut bytes.as_slice());
    is(&rt, answer.as_str(), "pool: settings: not TOML");
}

#[test]
fn a_failed_read_is_reported(rt: HostRuntime) {
    let mut reader = Failing::new(b"maxTotal = 3\n", 5);
    let answer = reported(&rt, rt.alloc(), &mut reader);
    is(&rt, answer.as_str(), "pool: read failed");
}

#[test]
fn single_bytes_make_no_difference(rt: HostRuntime) {
    let written = Cell::new(0);
    let mut reader = Pieces::new(b"maxTotal = 3\nmaxIdle = 2\n", 1, &written);
    let answer = read_settings(rt.alloc(), &mut reader);
    assert!(rt;
        matches!(answer, Ok(settings) if settings.max_total() == 3 && settings.max_idle() == 2)
    );
}
