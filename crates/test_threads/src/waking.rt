//! A borrow that waits is woken after another caller's work in the factory.
//! An object is made or tested for the queue, or a place is free again after a failed make.

use crate::actions::{Action, Expectation};
use crate::beside::{Gated, tries};
use crate::items::{Failing, NOT_MADE};
use crate::turns::Flag;
use std::alloc::Global;
use std::process::Abort;
use std::sync::Wait;
use std::thread::Threads;

const SETTINGS: &str = "maxTotal = 1\ntestWhileIdle = true\n";

/// The action of a caller while another waits for the only place, and what waits at the gate meanwhile.
#[derive(Clone, Copy)]
struct Work<'a> {
    rows: &'a [Expectation],
    failing: Failing,
    gated: Gated,
}

// One caller works, and waits at the gate with the object that it owns, as the journal's last entry but one records.
// Another waits for the place, as the last one records. A third lets that one begin, and then opens the gate. Once the
// other has the object, the journal has three more entries.
fn wakes<R: Threads + Wait + Abort + Sync>(
    rt: &R,
    alloc: Global,
    work: Work,
    begun: u64,
    object: u64,
) {
    let waits = [
        (Action::UntilSet(Flag::Begun), "done", 0),
        (Action::Borrow, "lent", object),
    ];
    let opens = [
        (Action::UntilSteps(begun), "done", 0),
        (Action::Set(Flag::Begun), "done", 0),
        (Action::UntilSteps(begun.saturating_add(1)), "done", 0),
        (Action::Set(Flag::Gate), "done", 0),
        (Action::UntilSteps(begun.saturating_add(4)), "done", 0),
    ];
    let parts = [work.rows, waits.as_slice(), opens.as_slice()];
    tries(rt, alloc, SETTINGS, work.failing, work.gated, parts);
}

#[test]
fn who_waits_is_woken_by_an_addition(rt: HostRuntime) {
    let work = Work {
        rows: &[(Action::Add, "idle", 0)],
        failing: Failing::Never,
        gated: Gated::Making,
    };
    wakes(&rt, rt.alloc(), work, 1, 0);
}

// The make fails, in an addition or in a borrow.
#[test]
fn who_waits_is_woken_by_a_failed_make(rt: HostRuntime) {
    for action in [Action::Add, Action::Borrow] {
        let rows = [(action, "not made", u64::from(NOT_MADE))];
        let work = Work {
            rows: &rows,
            failing: Failing::Nth(1),
            gated: Gated::Making,
        };
        wakes(&rt, rt.alloc(), work, 1, 1);
    }
}

#[test]
fn who_waits_is_woken_by_an_idle_test(rt: HostRuntime) {
    let work = Work {
        rows: &[(Action::Add, "idle", 0), (Action::Evict, "examined", 1)],
        failing: Failing::Never,
        gated: Gated::Testing,
    };
    wakes(&rt, rt.alloc(), work, 4, 0);
}
