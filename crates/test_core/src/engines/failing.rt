//! Readers and writers that fail at each byte.

use crate::engines::outcomes::is;
use crate::engines::run;
use crate::engines::scripts::{PLAIN_LIFE, add_line, script_of};
use crate::engines::streams::{Failing, Limited};
use pool_engines::EngineFault;
use pool_settings::Settings;
use std::alloc::Global;
use std::fmt::Debug;
use std::process::Abort;

/// Returns the number of lines that end within the bytes.
fn lines_in(bytes: &[u8]) -> usize {
    let mut lines = 0usize;
    for byte in bytes {
        if *byte == b'\n' {
            lines = lines.saturating_add(1);
        }
    }
    lines
}

/// Returns the first `count` lines of a text.
fn first_lines(rt: &impl Abort, alloc: Global, text: &str, count: usize) -> String {
    let mut lines = String::new(alloc);
    for line in text.lines().take(count) {
        add_line(rt, &mut lines, line);
    }
    lines
}

/// Ends the test unless `found` is `wanted`, and names the bytes.
fn is_at_bytes<T: Debug + Drop + PartialEq>(rt: &impl Abort, bytes: &[u8], found: T, wanted: T) {
    assert_eq!(rt; found, wanted, "at {bytes:?}");
}

/// Runs a script from a reader that returns these bytes in pieces of this size, and then fails.
fn fails_behind(rt: &impl Abort, alloc: Global, given: &[u8], size: usize) {
    let mut reader = Failing::new(given, size);
    let mut written = Vec::new(alloc);
    let made = run(alloc, Settings::default(), &mut reader, &mut written);
    let lines = first_lines(rt, alloc, PLAIN_LIFE, lines_in(given));
    let found = (made, reader.has_failed(), written.as_slice());
    let wanted = (Err(EngineFault::Read), true, lines.as_bytes());
    is_at_bytes(rt, given, found, wanted);
}

#[test]
fn readers_that_fail_at_each_byte(rt: HostRuntime) {
    let script = script_of(&rt, rt.alloc(), PLAIN_LIFE);
    for count in 0..script.len() {
        let given = &script.as_bytes()[..count];
        fails_behind(&rt, rt.alloc(), given, 1);
        fails_behind(&rt, rt.alloc(), given, 100);
    }
}

/// Runs a script with a writer that takes these bytes, and then fails or takes none.
fn fails_after(rt: &impl Abort, alloc: Global, script: &str, taken: &[u8], fails: bool) {
    let mut writer = Limited::new(alloc, taken.len(), fails);
    let mut rest = script.as_bytes();
    let made = run(alloc, Settings::default(), &mut rest, &mut writer);
    is(rt, (made, writer.bytes()), (Err(EngineFault::Write), taken));
}

#[test]
fn writers_that_fail_after_each_byte(rt: HostRuntime) {
    let script = script_of(&rt, rt.alloc(), PLAIN_LIFE);
    for count in 0..PLAIN_LIFE.len() {
        let taken = &PLAIN_LIFE.as_bytes()[..count];
        fails_after(&rt, rt.alloc(), &script, taken, false);
        fails_after(&rt, rt.alloc(), &script, taken, true);
    }
}
