//! Journals with little room: which calls fail, and which are still completed.
//! The journal's length is tested throughout.

use crate::actions::{Action, Expectation};
use crate::items::Failing;
use crate::solo::tries;

// While an object is lent there is room only for its return and for the close. Then there is room only for the close,
// and at last for nothing.
const LOAN: [Expectation; 25] = [
    (Action::Borrow, "lent", 0),
    (Action::Touch, "full", 0),
    (Action::Add, "full", 0),
    (Action::Fill, "full", 0),
    (Action::Evict, "full", 0),
    (Action::Reclaim, "full", 0),
    (Action::Clear, "full", 0),
    (Action::Maintain, "full", 0),
    (Action::Steps, "steps", 2),
    (Action::GiveBack, "parked", 0),
    (Action::Steps, "steps", 4),
    (Action::Borrow, "full", 0),
    (Action::Evict, "full", 0),
    (Action::Steps, "steps", 4),
    (Action::Close, "count", 1),
    (Action::Borrow, "full", 0),
    (Action::Close, "full", 0),
    (Action::Steps, "steps", 7),
    (Action::Idle, "idle", 0),
    (Action::Lent, "lent", 0),
    (Action::Reserved, "reserved", 0),
    (Action::Created, "created", 1),
    (Action::Destroyed, "destroyed", 1),
    (Action::Evicted, "evicted", 0),
    (Action::Reclaimed, "reclaimed", 0),
];

fn loan() -> &'static [Expectation] {
    &LOAN
}

// With a limit that is one higher there is room for the start of an eviction run.
const RUN: [Expectation; 7] = [
    (Action::Borrow, "lent", 0),
    (Action::GiveBack, "parked", 0),
    (Action::Steps, "steps", 4),
    (Action::Evict, "full", 0),
    (Action::Steps, "steps", 5),
    (Action::Close, "count", 1),
    (Action::Steps, "steps", 8),
];

fn run() -> &'static [Expectation] {
    &RUN
}

// An object can be added, but none can be borrowed.
const ONE_ADDITION: [Expectation; 3] = [
    (Action::Add, "idle", 0),
    (Action::Borrow, "full", 0),
    (Action::Steps, "steps", 2),
];

fn one_addition() -> &'static [Expectation] {
    &ONE_ADDITION
}

// There is no room even to add one.
const NO_ADDITION: [Expectation; 2] = [(Action::Add, "full", 0), (Action::Steps, "steps", 0)];

fn no_addition() -> &'static [Expectation] {
    &NO_ADDITION
}

// A broken object can be destroyed, and there is room for nothing else.
const BROKEN: [Expectation; 7] = [
    (Action::Borrow, "lent", 0),
    (Action::Add, "full", 0),
    (Action::Invalidate, "destroyed", 0),
    (Action::Steps, "steps", 4),
    (Action::Destroyed, "destroyed", 1),
    (Action::Close, "count", 0),
    (Action::Steps, "steps", 5),
];

fn broken() -> &'static [Expectation] {
    &BROKEN
}

// A reclaimed object stays with its holder if there is no room to return it: three more entries, and there is room only
// for the close.
const RECLAIMED: [Expectation; 15] = [
    (Action::Borrow, "lent", 0),
    (Action::Reclaim, "count", 1),
    (Action::Clear, "count", 0),
    (Action::Steps, "steps", 5),
    (Action::Clear, "count", 0),
    (Action::Steps, "steps", 6),
    (Action::Clear, "count", 0),
    (Action::Steps, "steps", 7),
    (Action::GiveBack, "full", 0),
    (Action::Invalidate, "full", 0),
    (Action::Touch, "full", 0),
    (Action::Held, "awake", 0),
    (Action::Steps, "steps", 7),
    (Action::Close, "count", 0),
    (Action::Steps, "steps", 8),
];

fn reclaimed() -> &'static [Expectation] {
    &RECLAIMED
}

/// Every object is abandoned as soon as it is lent.
const FORGETFUL: &str = "journalLimit = 8
[abandoned]
removeAbandonedOnMaintenance = true
removeAbandonedTimeoutMillis = 0
";

#[test]
fn what_was_begun_is_finished_in_a_full_journal(rt: HostRuntime) {
    for (settings, rows) in [
        ("journalLimit = 4", no_addition()),
        ("journalLimit = 5", one_addition()),
        ("journalLimit = 7", loan()),
        ("journalLimit = 8", run()),
        ("journalLimit = 7", broken()),
        (FORGETFUL, reclaimed()),
    ] {
        tries(&rt, rt.alloc(), settings, Failing::Never, rows);
    }
}
