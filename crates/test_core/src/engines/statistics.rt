//! Statistics up to a limit, and over streams that come in pieces or fail. tests/cases has the statistics of journals.

use crate::engines::outcomes::{is, sums_up, wrote};
use crate::engines::scripts::PLAIN_LIFE;
use crate::engines::stats;
use crate::engines::streams::{Failing, Pieces, Stingy};
use pool_engines::EngineFault;
use pool_journal::LineFault;
use std::alloc::Global;
use std::cell::Cell;
use std::process::Abort;

const OF_PLAIN_LIFE: &str = "borrowed 1\nreturned 1\ncreated 1\ndestroyed 0\nevicted 0\n\
    borrowtestfailed 0\nreclaimed 0\nlongest 4\ntotal 4\n";

const OF_NOTHING: &str = "borrowed 0\nreturned 0\ncreated 0\ndestroyed 0\nevicted 0\n\
    borrowtestfailed 0\nreclaimed 0\nlongest 0\ntotal 0\n";

const CLOSED: &str = "0 0 borrow 0 = make 0\n\
    0 0 ready 0 good = lent\n\
    1 0 borrow 0 = make 1\n\
    0 1 return 0 = check\n\
    2 2 close = count 0\n\
    0 3 park 0 good = destroy\n\
    0 3 destroyed 0 = freed\n\
    1 3 ready 1 good = lent\n\
    2 4 close = nothing\n\
    2 4 borrow 4 = refused closed\n\
    2 4 add = refused closed\n\
    2 4 evict = refused closed\n\
    2 4 fill = enough\n\
    1 5 return 1 = check\n\
    1 5 park 1 good = destroy\n";

const OF_CLOSED: &str = "borrowed 2\nreturned 2\ncreated 2\ndestroyed 1\nevicted 0\n\
    borrowtestfailed 0\nreclaimed 0\nlongest 2\ntotal 3\n";

// The second segment of a journal that was cut after four entries.
const SEGMENT: &str = "pool-journal 2 4 1 open none 0 0 0 1\n\
    0 idle 3 0 0 0 old\n\
    0 0 borrow 0 = take 0\n";

const NO_NUMBER: &str = "0 10 borrow 10 = make 0\n0 11 ready 00 good = lent\n";

const BAD_NUMBER: EngineFault = EngineFault::Line(2, LineFault::BadNumber);

/// Returns limits and journals, with the result of their statistics, and the written lines.
fn limited_journals() -> &'static [(u64, &'static str, Result<(), EngineFault>, &'static str)] {
    &[
        (4, PLAIN_LIFE, Ok(()), OF_PLAIN_LIFE),
        (3, PLAIN_LIFE, Err(EngineFault::Full(4)), ""),
        (0, PLAIN_LIFE, Err(EngineFault::Full(1)), ""),
        (0, "", Ok(()), OF_NOTHING),
        // A line is read before the limit is checked.
        (1, NO_NUMBER, Err(BAD_NUMBER), ""),
    ]
}

// If there is one entry too many, nothing is written.
#[test]
fn statistics_end_at_their_limit(rt: HostRuntime) {
    for &(limit, journal, ended, reported) in limited_journals() {
        sums_up(&rt, rt.alloc(), limit, journal, ended, reported);
    }
}

// The limit counts the objects of the base and the entries, not the first line.
#[test]
fn statistics_of_a_segment_end_at_their_limit(rt: HostRuntime) {
    for &(limit, ended, reported) in &[
        (2, Ok(()), OF_NOTHING),
        (1, Err(EngineFault::Full(3)), ""),
        (0, Err(EngineFault::Full(2)), ""),
    ] {
        sums_up(&rt, rt.alloc(), limit, SEGMENT, ended, reported);
    }
}

fn statistics_in_pieces(rt: &impl Abort, alloc: Global, size: usize) {
    let written = Cell::new(0);
    let mut reader = Pieces::new(CLOSED.as_bytes(), size, &written);
    let mut writer = Stingy::new(alloc, size, &written);
    let ended = stats(alloc, &mut reader, &mut writer);
    is(rt, ended, Ok(()));
    wrote(rt, writer.bytes(), OF_CLOSED);
}

#[test]
fn pieces_make_no_difference_to_statistics(rt: HostRuntime) {
    for size in [1, 7, 15, 100] {
        statistics_in_pieces(&rt, rt.alloc(), size);
    }
}

#[test]
fn statistics_after_a_failed_read(rt: HostRuntime) {
    let mut written = Vec::new(rt.alloc());
    let mut reader = Failing::new(PLAIN_LIFE.as_bytes(), 24);
    let ended = stats(rt.alloc(), &mut reader, &mut written);
    let found = (ended, written.is_empty());
    is(&rt, found, (Err(EngineFault::Read), true));
}

#[test]
fn statistics_after_a_failed_write(rt: HostRuntime) {
    let mut broken = Failing::new(&[], 30);
    let ended = stats(rt.alloc(), &mut PLAIN_LIFE.as_bytes(), &mut broken);
    is(&rt, (ended, broken.taken()), (Err(EngineFault::Write), 30));
}
