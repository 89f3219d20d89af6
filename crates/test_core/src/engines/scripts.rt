//! Scripts that come in pieces, and streams that fail.
//! tests/cases has scripts and journals that are played on the program.

use crate::engines::outcomes::{is, wrote};
use crate::engines::streams::{Failing, Pieces, Stingy};
use crate::engines::{check, run};
use pool_engines::EngineFault;
use pool_settings::Settings;
use std::alloc::Global;
use std::cell::Cell;
use std::process::Abort;

pub const PLAIN_LIFE: &str = "0 10 borrow 10 = make 0\n\
    0 11 ready 0 good = lent\n\
    0 15 return 0 = check\n\
    0 16 park 0 good = parked\n";

pub const FAILED_ACTIVATION: &str = "0 0 borrow 0 = make 0\n\
    1 0 borrow 0 = make 1\n\
    0 1 ready 0 good = lent\n\
    1 1 ready 1 good = lent\n\
    0 2 return 0 = check\n\
    0 2 park 0 good = parked\n\
    1 3 return 1 = check\n\
    1 3 park 1 good = parked\n\
    0 4 borrow 4 = take 1\n\
    0 4 ready 1 activatefail = destroy\n\
    0 4 destroyed 1 = freed\n\
    0 4 borrow 4 = take 0\n";

/// Adds a line to a text.
pub fn add_line(rt: &impl Abort, text: &mut String, line: &str) {
    text.push_str(line).expect(rt, "a line");
    text.push_str("\n").expect(rt, "the end of a line");
}

/// Returns the script of a journal: each line up to its ` = `.
pub fn script_of(rt: &impl Abort, alloc: Global, journal: &str) -> String {
    let mut script = String::new(alloc);
    for line in journal.lines() {
        let asked = match line.split_once(" = ") {
            Some((asked, _)) => asked,
            None => line,
        };
        add_line(rt, &mut script, asked);
    }
    script
}

/// Returns settings with this journal limit.
pub fn with_limit(journal_limit: u64) -> Settings {
    Settings {
        journal_limit,
        ..Settings::default()
    }
}

fn runs_in_pieces(rt: &impl Abort, alloc: Global, size: usize) {
    let script = script_of(rt, alloc, FAILED_ACTIVATION);
    let written = Cell::new(0);
    let mut reader = Pieces::new(script.as_bytes(), size, &written);
    let mut writer = Stingy::new(alloc, size, &written);
    let made = run(alloc, Settings::default(), &mut reader, &mut writer);
    is(rt, made, Ok(12));
    wrote(rt, writer.bytes(), FAILED_ACTIVATION);
}

#[test]
fn pieces_make_no_difference(rt: HostRuntime) {
    for size in [1, 7, 15, 100] {
        runs_in_pieces(&rt, rt.alloc(), size);
    }
}

#[test]
fn each_line_is_answered_before_more_is_read(rt: HostRuntime) {
    let written = Cell::new(0);
    let mut reader = Pieces::new(b"0 10 borrow 10\n0 11 ready 0 good\n", 15, &written);
    let mut writer = Stingy::new(rt.alloc(), 100, &written);
    let made = run(rt.alloc(), Settings::default(), &mut reader, &mut writer);
    let first = "0 10 borrow 10 = make 0\n".len();
    let found = (made, reader.written_at_second_read());
    is(&rt, found, (Ok(2), Some(first)));
}

#[test]
fn what_stands_after_a_failed_read(rt: HostRuntime) {
    let mut written = Vec::new(rt.alloc());
    let mut reader = Failing::new(b"0 10 borrow 10\n0 11 rea", 24);
    let made = run(rt.alloc(), Settings::default(), &mut reader, &mut written);
    let first = b"0 10 borrow 10 = make 0\n".as_slice();
    let found = (made, written.as_slice());
    is(&rt, found, (Err(EngineFault::Read), first));
}

#[test]
fn what_stands_after_a_failed_write(rt: HostRuntime) {
    let script = script_of(&rt, rt.alloc(), PLAIN_LIFE);
    let mut rest = script.as_bytes();
    let mut broken = Failing::new(&[], 30);
    let made = run(rt.alloc(), Settings::default(), &mut rest, &mut broken);
    is(&rt, (made, broken.taken()), (Err(EngineFault::Write), 30));
}

#[test]
fn an_empty_file_is_legal(rt: HostRuntime) {
    let mut reported = Vec::new(rt.alloc());
    let mut empty: [&[u8]; 1] = [&[]];
    let found = check(rt.alloc(), with_limit(7), &mut empty, &mut reported);
    let legal = b"legal 0\n".as_slice();
    is(&rt, (found, reported.as_slice()), (Ok(true), legal));
}
