//! The statistics of journals after each entry. tests/cases/stats has those of whole journals.

use crate::playing::{entries, given};
use pool_journal::{Answer, Entry, Input, Outcome};
use pool_stats::{RemovalTotals, RunningTally, Statistics};
use std::alloc::Global;
use std::process::Abort;

const RECLAIMED: &str = "0 0 borrow 0 = make 0\n\
    0 0 ready 0 good = lent\n\
    1 99 reclaim maintain = count 0\n\
    1 99 reclaimnext = nothing\n\
    1 100 reclaim maintain = count 1\n\
    1 100 reclaimnext = reclaimed 0\n\
    0 101 return 0 = gone\n";

const DESTROYED: &str = "0 0 borrow 0 = make 0\n\
    0 0 ready 0 testfail = destroy\n\
    0 0 destroyed 0 = freed\n\
    0 0 add = make 1\n\
    0 0 added 1 good = parked\n\
    1 5 evictnext = test 1\n\
    1 5 tested 1 testfail = destroy\n\
    1 5 destroyed 1 = freed\n\
    1 6 evictnext = destroyidle 2\n\
    1 7 clearnext = destroyidle 3\n\
    1 8 tested 4 good = destroy\n\
    1 9 ready 5 activatefail = destroy\n";

// Object 0 is lent for 15 milliseconds, and then until a time before that loan began. Object 1 is still lent.
const LENT_AGAIN: &str = "0 0 borrow 0 = make 0\n\
    0 10 ready 0 good = lent\n\
    0 25 return 0 = check\n\
    0 26 park 0 good = parked\n\
    1 30 borrow 30 = take 0\n\
    1 30 ready 0 good = lent\n\
    0 28 borrow 28 = make 1\n\
    0 29 ready 1 good = lent\n\
    1 20 return 0 = check\n\
    1 21 park 0 good = parked\n";

/// Returns the statistics with these numbers, in the order of the fields.
fn numbers(all: [u64; 9]) -> Statistics {
    let [
        borrowed,
        returned,
        created,
        destroyed,
        evicted,
        borrow_test_failed,
        reclaimed,
        longest,
        total,
    ] = all;
    Statistics {
        borrowed,
        returned,
        created,
        destroyed,
        evicted,
        borrow_test_failed,
        reclaimed,
        longest,
        total,
    }
}

// Ends the test unless the statistics of a journal are the expected ones.
fn come_to(rt: &impl Abort, journal: &str, found: Statistics, wanted: Statistics) {
    assert_eq!(rt; found, wanted, "at {journal}");
}

// Passes one more entry to a tally.
fn reports(rt: &impl Abort, tally: &mut RunningTally, entry: &Entry) {
    if tally.taken() < u64::MAX {
        given(rt, tally.take(entry));
    } else {
        panic!(rt; "too many entries")
    }
}

// Ends the test unless a tally has the statistics of these entries.
fn is_reported(
    rt: &impl Abort,
    alloc: Global,
    journal: &str,
    tally: &RunningTally,
    reported: &[Entry],
) {
    let wanted = given(rt, Statistics::of(alloc, reported));
    come_to(rt, journal, tally.statistics(), wanted);
    assert_eq!(rt; tally.taken(), reported.len() as u64);
}

// Passes entries to a tally one by one, and compares its statistics after each with those of all entries so far.
fn reported_of(rt: &impl Abort, alloc: Global, journal: &str, entries: &[Entry]) -> Statistics {
    let mut tally = RunningTally::new(alloc);
    let mut reported = Vec::new(alloc);
    for entry in entries {
        reports(rt, &mut tally, entry);
        given(rt, reported.push(*entry));
        is_reported(rt, alloc, journal, &tally, &reported);
    }
    tally.statistics()
}

#[test]
fn reported_one_by_one(rt: HostRuntime) {
    for (text, wanted) in [
        (LENT_AGAIN, [3, 2, 2, 0, 0, 0, 0, 15, 15]),
        (RECLAIMED, [1, 0, 1, 0, 0, 0, 1, 100, 100]),
        (DESTROYED, [0, 0, 2, 2, 2, 1, 0, 0, 0]),
    ] {
        let entries = entries(&rt, rt.alloc(), text);
        let found = reported_of(&rt, rt.alloc(), text, &entries);
        come_to(&rt, text, found, numbers(wanted));
    }
}

#[test]
fn ends_one_by_one(rt: HostRuntime) {
    let outcome = Outcome::TestFailed;
    let ended = RemovalTotals::none()
        .after(Input::Tested { id: 0, outcome }, Answer::Destroy)
        .after(Input::Destroyed { id: 0 }, Answer::Freed)
        .after(Input::EvictNext, Answer::DestroyIdle(1))
        .after(Input::ReclaimNext, Answer::Reclaimed(2))
        .after(Input::EvictNext, Answer::KeptIdle(3));
    let wanted = RemovalTotals {
        destroyed: 1,
        evicted: 2,
        reclaimed: 1,
    };
    assert_eq!(rt; ended, wanted);
}
