//! Objects that are made for the idle queue: added one by one, and up to the number to keep.

use crate::actions::Action;
use crate::items::{Call, Failing, NOT_MADE, NOT_PASSIVATED};
use crate::solo::tries;

/// One place, and new objects are tested.
const ONE_PLACE: &str = "maxTotal = 1\ntestOnCreate = true";

#[test]
fn added(rt: HostRuntime) {
    let rows = [
        (Action::Add, "idle", 0),
        (Action::Idle, "idle", 1),
        (Action::Destroyed, "destroyed", 0),
        (Action::Add, "no place", 0),
        (Action::Close, "count", 1),
        (Action::Add, "closed", 0),
        (Action::Fill, "count", 0),
    ];
    tries(&rt, rt.alloc(), ONE_PLACE, Failing::Never, &rows);
}

#[test]
fn none_added(rt: HostRuntime) {
    for (failing, word, number) in [
        (Call::Make, "not made", u64::from(NOT_MADE)),
        (Call::Validate, "new one failed its test", 0),
        (Call::Passivate, "not passivated", u64::from(NOT_PASSIVATED)),
    ] {
        let rows = [
            (Action::Add, word, number),
            (Action::Idle, "idle", 0),
            (Action::Destroyed, "destroyed", 1),
            (Action::Close, "count", 0),
            (Action::Add, "closed", 0),
            (Action::Fill, "count", 0),
        ];
        tries(&rt, rt.alloc(), ONE_PLACE, Failing::All(failing), &rows);
    }
}

// Up to the number to keep, to the last place, and to a make that fails: the third call of the factory that can fail
// makes the second object.
#[test]
fn filled(rt: HostRuntime) {
    for (settings, failing, word, number, idle) in [
        ("minIdle = 3", Failing::Never, "count", 3, 3),
        ("minIdle = 3\nmaxTotal = 2", Failing::Never, "count", 2, 2),
        (
            "minIdle = 3",
            Failing::Nth(3),
            "not made",
            u64::from(NOT_MADE),
            1,
        ),
    ] {
        let rows = [(Action::Fill, word, number), (Action::Idle, "idle", idle)];
        tries(&rt, rt.alloc(), settings, failing, &rows);
    }
}

/// All objects stay idle, and a run examines them all.
const MANY: &str = "minIdle = 20000
maxIdle = -1
maxTotal = -1
numTestsPerEvictionRun = -1
";

// A queue of many objects is filled, examined by an eviction run, and cleared.
#[test]
fn stocked_with_many(rt: HostRuntime) {
    let rows = [
        (Action::Fill, "count", 20_000),
        (Action::Evict, "examined", 20_000),
        (Action::Idle, "idle", 20_000),
        (Action::Clear, "count", 20_000),
        (Action::Destroyed, "destroyed", 20_000),
    ];
    tries(&rt, rt.alloc(), MANY, Failing::Never, &rows);
}
