//! How often a reader and a writer are called, and with how many bytes.

use crate::engines::counted::{Asked, CountedReader, CountedWriter, Handed};
use crate::engines::outcomes::{is, is_at};
use crate::engines::scripts::{FAILED_ACTIVATION, PLAIN_LIFE, script_of, with_limit};
use crate::engines::settings_files::says_three;
use crate::engines::streams::{Endless, Failing, Pieces};
use crate::engines::{check, read_settings, run, stats, stats_of_at_most};
use pool_engines::EngineFault;
use pool_journal::LineFault;
use pool_settings::Settings;
use std::alloc::Global;
use std::cell::Cell;
use std::process::Abort;

/// Returns the bytes of a line, `times` times.
fn repeated(rt: &impl Abort, alloc: Global, line: &str, times: usize) -> Vec<u8> {
    let mut bytes = Vec::new(alloc);
    for _ in 0..times {
        let added = bytes.extend_from_slice(line.as_bytes());
        added.expect(rt, "a line");
    }
    bytes
}

/// The calls of a writer: one write and its flush.
const ONE_WRITE: Handed = Handed {
    writes: 1,
    flushes: 1,
    idle_flushes: 0,
    unflushed: 0,
};

/// No call.
const NO_WRITE: Handed = Handed {
    writes: 0,
    flushes: 0,
    idle_flushes: 0,
    unflushed: 0,
};

/// Four writes, each with its flush.
const FOUR_WRITES: Handed = Handed {
    writes: 4,
    flushes: 4,
    idle_flushes: 0,
    unflushed: 0,
};

/// 130,000 bytes come in two reads. The journal has 200,016 bytes, of which 100,836 are those of the 5,041 lines
/// of the first read. The engine gathers as many as fit its buffer before each write.
#[test]
fn bytes_are_gathered(rt: HostRuntime) {
    let script = repeated(&rt, rt.alloc(), "0 0 borrow 0\n", 10_000);
    let mut reader = CountedReader::new(&script, 0);
    let mut writer = CountedWriter::new(rt.alloc(), 0);
    let made = run(rt.alloc(), Settings::default(), &mut reader, &mut writer);
    let asked = reader.asked();
    assert!(rt; asked.least_room > 65_536 - 256);
    let found = (made, asked.reads, asked.ends, asked.most_room);
    is(&rt, found, (Ok(10_000), 3, 1, 65_536));
    let handed = (writer.handed(), writer.bytes().len());
    is(&rt, handed, (FOUR_WRITES, 200_016));
}

fn is_judged_in_one_write(rt: &impl Abort, alloc: Global, journal: &str) {
    let mut files = [CountedReader::new(journal.as_bytes(), 0)];
    let mut writer = CountedWriter::new(alloc, 0);
    let found = check(alloc, Settings::default(), &mut files, &mut writer);
    let found = (found.is_ok(), writer.handed());
    is_at(rt, journal, found, (true, ONE_WRITE));
}

#[test]
fn a_verdict_is_one_write(rt: HostRuntime) {
    is_judged_in_one_write(&rt, rt.alloc(), PLAIN_LIFE);
    is_judged_in_one_write(&rt, rt.alloc(), "0 0 borrow 0 = wait\n");
}

#[test]
fn statistics_are_one_write(rt: HostRuntime) {
    let mut reader = CountedReader::new(PLAIN_LIFE.as_bytes(), 0);
    let mut writer = CountedWriter::new(rt.alloc(), 0);
    let ended = stats(rt.alloc(), &mut reader, &mut writer);
    let asked = reader.asked();
    let found = (ended, asked.reads, asked.ends, writer.handed());
    is(&rt, found, (Ok(()), 2, 1, ONE_WRITE));
}

fn is_nothing_asked(rt: &impl Abort, alloc: Global, script: &str) {
    let mut reader = CountedReader::new(script.as_bytes(), 0);
    let mut writer = CountedWriter::new(alloc, 0);
    let _ = run(alloc, Settings::default(), &mut reader, &mut writer);
    let found = (reader.asked().ends, writer.handed());
    is_at(rt, script, found, (1, NO_WRITE));
}

#[test]
fn no_whole_line_is_no_request(rt: HostRuntime) {
    is_nothing_asked(&rt, rt.alloc(), "");
    is_nothing_asked(&rt, rt.alloc(), "0 0 borrow");
}

#[test]
fn nothing_is_read_after_a_wrong_answer(rt: HostRuntime) {
    let mut reported = Vec::new(rt.alloc());
    let mut wrong = [Endless::new(b"0 0 borrow 0 = wait\n")];
    let found = check(rt.alloc(), Settings::default(), &mut wrong, &mut reported);
    let illegal = b"illegal 0 make 0\n".as_slice();
    let found = (found, wrong[0].reads(), reported.as_slice());
    is(&rt, found, (Ok(false), 1, illegal));
}

#[test]
fn nothing_is_read_after_a_long_line(rt: HostRuntime) {
    let mut reported = Vec::new(rt.alloc());
    let mut none = Endless::new(b"a");
    let made = run(rt.alloc(), Settings::default(), &mut none, &mut reported);
    let too_long = EngineFault::Line(1, LineFault::LineTooLong);
    is(
        &rt,
        (made, none.reads(), reported.len()),
        (Err(too_long), 1, 0),
    );
}

#[test]
fn nothing_is_read_after_what_is_no_entry(rt: HostRuntime) {
    let mut reported = Vec::new(rt.alloc());
    let mut none = Endless::new(b"no entry\n");
    let tallied = stats(rt.alloc(), &mut none, &mut reported);
    let not_a_line = EngineFault::Line(1, LineFault::NotALine);
    let found = (tallied, none.reads(), reported.len());
    is(&rt, found, (Err(not_a_line), 1, 0));
}

/// A journal of seven entries, which is full.
const FULL_OF_CLOSES: &str = "0 0 close = count 0\n\
    0 0 close = nothing\n\
    0 0 close = nothing\n\
    0 0 close = nothing\n\
    0 0 close = nothing\n\
    0 0 close = nothing\n\
    0 0 close = nothing\n";

#[test]
fn an_endless_script_is_left_where_the_journal_is_full(rt: HostRuntime) {
    let mut written = Vec::new(rt.alloc());
    let mut reader = Endless::new(b"0 0 close\n");
    let made = run(rt.alloc(), with_limit(7), &mut reader, &mut written);
    let found = (made, reader.reads(), written.as_slice());
    let full = EngineFault::Full(8);
    is(&rt, found, (Err(full), 1, FULL_OF_CLOSES.as_bytes()));
}

/// The most bytes of seven lines and one more.
const EIGHT_LINES: usize = 8 * 256;

/// Ends the test unless a reader was asked once, for no more bytes than eight lines can have.
fn is_asked_for_eight_lines(rt: &impl Abort, reader: &CountedReader) {
    let asked = reader.asked();
    assert!(rt; asked.reads == 1);
    assert!(rt; asked.most_room <= EIGHT_LINES);
}

#[test]
fn no_more_is_read_than_the_limit_allows(rt: HostRuntime) {
    let mut written = Vec::new(rt.alloc());
    let script = repeated(&rt, rt.alloc(), "0 0 close\n", 10_000);
    let mut reader = CountedReader::new(&script, 0);
    let made = run(rt.alloc(), with_limit(7), &mut reader, &mut written);
    is(&rt, made, Err(EngineFault::Full(8)));
    is_asked_for_eight_lines(&rt, &reader);
}

#[test]
fn no_more_of_a_journal_is_read_than_the_limit_allows(rt: HostRuntime) {
    let mut reported = Vec::new(rt.alloc());
    let mut journal = repeated(&rt, rt.alloc(), "0 0 close = count 0\n", 1);
    let more = repeated(&rt, rt.alloc(), "0 0 close = nothing\n", 10_000);
    journal.extend_from_slice(&more).expect(&rt, "lines");
    let mut files = [CountedReader::new(&journal, 0)];
    let found = check(rt.alloc(), with_limit(7), &mut files, &mut reported);
    is(&rt, found, Err(EngineFault::Full(8)));
    is_asked_for_eight_lines(&rt, &files[0]);
    let mut reader = CountedReader::new(&journal, 0);
    let tallied = stats_of_at_most(rt.alloc(), 7, &mut reader, &mut reported);
    is(&rt, tallied, Err(EngineFault::Full(8)));
    is_asked_for_eight_lines(&rt, &reader);
}

#[test]
fn a_failed_read_is_not_tried_again(rt: HostRuntime) {
    let mut written = Vec::new(rt.alloc());
    let mut reader = Failing::new(b"0 10 borrow 10\n", 15);
    let made = run(rt.alloc(), Settings::default(), &mut reader, &mut written);
    let found = (made, reader.has_failed(), reader.calls_after());
    is(&rt, found, (Err(EngineFault::Read), true, 0));
}

#[test]
fn a_failed_write_is_not_tried_again(rt: HostRuntime) {
    let script = script_of(&rt, rt.alloc(), PLAIN_LIFE);
    let mut rest = script.as_bytes();
    let mut writer = Failing::new(&[], 0);
    let made = run(rt.alloc(), Settings::default(), &mut rest, &mut writer);
    let found = (made, writer.has_failed(), writer.calls_after());
    is(&rt, found, (Err(EngineFault::Write), true, 0));
}

fn runs_past_signals(rt: &impl Abort, alloc: Global, signals: u64) {
    let script = script_of(rt, alloc, FAILED_ACTIVATION);
    let mut reader = CountedReader::new(script.as_bytes(), signals);
    let mut writer = CountedWriter::new(alloc, signals);
    let made = run(alloc, Settings::default(), &mut reader, &mut writer);
    let journal = FAILED_ACTIVATION.as_bytes();
    is(rt, (made, writer.bytes()), (Ok(12), journal));
    let found = (reader.asked().reads, writer.handed().unflushed);
    is(rt, found, (2, 0));
}

#[test]
fn signals_are_no_fault(rt: HostRuntime) {
    runs_past_signals(&rt, rt.alloc(), 1);
    runs_past_signals(&rt, rt.alloc(), 1_000);
}

#[test]
fn signals_are_no_fault_of_settings(rt: HostRuntime) {
    let mut reader = CountedReader::new(b"maxTotal = 3\n", 1_000);
    let answer = read_settings(rt.alloc(), &mut reader);
    assert!(rt; says_three(&answer));
    let asked = Asked {
        reads: 2,
        ends: 1,
        least_room: 4_096,
        most_room: 4_096,
    };
    is(&rt, reader.asked(), asked);
}

#[test]
fn a_journal_in_pieces_is_read_to_its_end_once(rt: HostRuntime) {
    let written = Cell::new(0);
    let mut files = [Pieces::new(PLAIN_LIFE.as_bytes(), 24, &written)];
    let mut reported = Vec::new(rt.alloc());
    let found = check(rt.alloc(), Settings::default(), &mut files, &mut reported);
    is(&rt, (found, files[0].reads()), (Ok(true), 6));
}
