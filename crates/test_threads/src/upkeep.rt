//! Eviction runs, reclaims and maintenance.

use crate::actions::Action;
use crate::items::{Call, Failing};
use crate::solo::tries;

// Two idle objects are examined: they stay idle without a test, stay idle after a test, and are destroyed after one.
#[test]
fn evicted(rt: HostRuntime) {
    let untested = Failing::All(Call::Validate);
    for (settings, failing, word, evicted) in [
        ("minIdle = 2", untested, "examined", 0),
        (
            "minIdle = 2\ntestWhileIdle = true",
            Failing::Never,
            "examined",
            0,
        ),
        (
            "minIdle = 2\ntestWhileIdle = true",
            untested,
            "all destroyed",
            2,
        ),
    ] {
        let rows = [
            (Action::Fill, "count", 2),
            (Action::Evict, word, 2),
            (Action::Evicted, "evicted", evicted),
        ];
        tries(&rt, rt.alloc(), settings, failing, &rows);
    }
}

/// A lent object is abandoned at once.
const FORGETFUL: &str = "minIdle = 3
[abandoned]
removeAbandonedOnMaintenance = true
removeAbandonedTimeoutMillis = 0
";

// An abandoned object is reclaimed, and the idle queue is filled again.
#[test]
fn maintained(rt: HostRuntime) {
    let rows = [
        (Action::Borrow, "lent", 0),
        (Action::Reclaim, "count", 1),
        (Action::GiveBack, "gone", 0),
        (Action::Maintain, "done", 0),
        (Action::Idle, "idle", 3),
    ];
    tries(&rt, rt.alloc(), FORGETFUL, Failing::Never, &rows);
}

// Maintenance of a closed pool.
#[test]
fn closed(rt: HostRuntime) {
    let rows = [
        (Action::Close, "count", 0),
        (Action::Evict, "closed", 0),
        (Action::Reclaim, "count", 0),
        (Action::Maintain, "closed", 0),
    ];
    tries(&rt, rt.alloc(), "", Failing::Never, &rows);
}

// A journal with room for one entry and for the entry of a close.
#[test]
fn short_of_room(rt: HostRuntime) {
    let rows = [
        (Action::Evict, "examined", 0),
        (Action::Evict, "full", 0),
        (Action::Reclaim, "full", 0),
        (Action::Maintain, "full", 0),
    ];
    tries(&rt, rt.alloc(), "journalLimit = 2", Failing::Never, &rows);
}
