//! The lines of a load's report, also after a writer that failed.

use crate::engines::outcomes::{is, wrote};
use crate::engines::streams::{Failing, Stingy};
use crate::engines::write_report;
use pool_engines::EngineFault;
use pool_stats::Statistics;
use std::cell::Cell;

const LINES: &str = "workers 4294967295\nrounds 18446744073709551615\nrefused 10\n\
    borrowed 1\nreturned 2\ncreated 3\ndestroyed 4\nevicted 5\n\
    borrowtestfailed 6\nreclaimed 7\nlongest 8\ntotal 9\n";

fn found() -> Statistics {
    Statistics {
        borrowed: 1,
        returned: 2,
        created: 3,
        destroyed: 4,
        evicted: 5,
        borrow_test_failed: 6,
        reclaimed: 7,
        longest: 8,
        total: 9,
    }
}

#[test]
fn lines_of_a_report(rt: HostRuntime) {
    let written = Cell::new(0);
    let mut writer = Stingy::new(rt.alloc(), 7, &written);
    let ended = write_report(rt.alloc(), u32::MAX, u64::MAX, 10, &found(), &mut writer);
    is(&rt, ended, Ok(()));
    wrote(&rt, writer.bytes(), LINES);
}

#[test]
fn a_report_after_a_failure(rt: HostRuntime) {
    let mut broken = Failing::new(&[], 30);
    let ended = write_report(rt.alloc(), 1, 1, 10, &found(), &mut broken);
    is(&rt, (ended, broken.taken()), (Err(EngineFault::Write), 30));
}
