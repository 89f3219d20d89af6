//! A check of a journal in several files.

use crate::engines::check;
use crate::engines::outcomes::is_at;
use crate::engines::scripts::with_limit;
use crate::engines::streams::Pieces;
use pool_engines::EngineFault;
use pool_journal::LineFault;
use std::alloc::Global;
use std::cell::Cell;
use std::process::Abort;

/// The first segment, which the limit of seven entries leaves room to end.
const FIRST: &str = "0 0 borrow 0 = make 0\n\
    0 0 ready 0 good = lent\n\
    0 0 return 0 = check\n\
    0 0 park 0 good = parked\n";

/// The second segment.
const SECOND: &str = "pool-journal 2 4 1 open none 0 0 0 1\n\
    0 idle 3 0 0 0 old\n\
    0 0 borrow 0 = take 0\n";

const OTHER_CURSOR: &str = "pool-journal 2 4 1 open 0 0 0 0 1\n\
    0 idle 3 0 0 0 old\n\
    0 0 borrow 0 = take 0\n";

const OTHER_OBJECT: &str = "pool-journal 2 4 1 open none 0 0 0 1\n\
    0 idle 2 0 0 0 old\n\
    0 0 borrow 0 = take 0\n";

const BAD_NUMBER: &str = "pool-journal 2 4 1 open none 0 0 0 1\n\
    0 idle 03 0 0 0 old\n\
    0 0 borrow 0 = take 0\n";

const WRONG_ANSWER: &str = "pool-journal 2 4 1 open none 0 0 0 1\n\
    0 idle 3 0 0 0 old\n\
    0 0 borrow 0 = make 1\n";

const CUT_OFF: &str = "pool-journal 2 4 1 open none 0 0 0 1\n\
    0 idle 3 0 0 0 old\n\
    0 0 borrow 0 = ta";

/// Checks the files, and compares the result and what is written.
fn is_judged(
    rt: &impl Abort,
    alloc: Global,
    files: &mut [&[u8]],
    ended: Result<bool, EngineFault>,
    reported: &str,
) {
    let mut written = Vec::new(alloc);
    let found = check(alloc, with_limit(7), files, &mut written);
    let wanted = (ended, reported.as_bytes());
    is_at(rt, reported, (found, written.as_slice()), wanted);
}

/// Checks a file after the first segment.
fn is_judged_second(
    rt: &impl Abort,
    alloc: Global,
    second: &str,
    ended: Result<bool, EngineFault>,
    reported: &str,
) {
    let mut files = [FIRST.as_bytes(), second.as_bytes()];
    is_judged(rt, alloc, &mut files, ended, reported);
}

/// An error of a line.
fn line<T>(number: u64, fault: LineFault) -> Result<T, EngineFault> {
    Err(EngineFault::Line(number, fault))
}

#[test]
fn no_files_are_legal(rt: HostRuntime) {
    is_judged(&rt, rt.alloc(), &mut [], Ok(true), "legal 0\n");
}

#[test]
fn segments_continue_one_another(rt: HostRuntime) {
    let alloc = rt.alloc();
    is_judged_second(&rt, alloc, SECOND, Ok(true), "legal 5\n");
    is_judged_second(&rt, alloc, OTHER_CURSOR, Ok(false), "illegal base 1\n");
    is_judged_second(&rt, alloc, OTHER_OBJECT, Ok(false), "illegal base 1\n");
    is_judged_second(&rt, alloc, "", Ok(false), "illegal base 1\n");
    is_judged_second(&rt, alloc, FIRST, Ok(false), "illegal base 1\n");
    is_judged_second(&rt, alloc, WRONG_ANSWER, Ok(false), "illegal 4 take 0\n");
}

#[test]
fn a_later_segment_is_not_the_first(rt: HostRuntime) {
    let alone = &mut [SECOND.as_bytes()];
    is_judged(&rt, rt.alloc(), alone, Ok(false), "illegal base 0\n");
    let twice = &mut [SECOND.as_bytes(), SECOND.as_bytes()];
    is_judged(&rt, rt.alloc(), twice, Ok(false), "illegal base 0\n");
}

#[test]
fn lines_are_numbered_in_each_file(rt: HostRuntime) {
    let alloc = rt.alloc();
    is_judged_second(&rt, alloc, BAD_NUMBER, line(2, LineFault::BadNumber), "");
    let part = "pool-journal 2 4 1 open";
    is_judged_second(&rt, alloc, part, line(1, LineFault::Truncated), "");
    let short = "pool-journal 2 4 1 open\n";
    is_judged_second(&rt, alloc, short, line(1, LineFault::NotALine), "");
    is_judged_second(&rt, alloc, CUT_OFF, line(3, LineFault::Truncated), "");
}

/// The second file is wrong, so the third isn't read.
#[test]
fn no_file_is_read_after_one_that_is_not_legal(rt: HostRuntime) {
    let written = Cell::new(0);
    let mut files = [
        Pieces::new(FIRST.as_bytes(), 100, &written),
        Pieces::new(WRONG_ANSWER.as_bytes(), 100, &written),
        Pieces::new(SECOND.as_bytes(), 100, &written),
    ];
    let mut reported = Vec::new(rt.alloc());
    let found = check(rt.alloc(), with_limit(7), &mut files, &mut reported);
    let reads = (files[0].reads(), files[1].reads(), files[2].reads());
    is_at(&rt, WRONG_ANSWER, (found, reads), (Ok(false), (2, 1, 0)));
}
