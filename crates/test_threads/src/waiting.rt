//! A borrow that waits is woken: by a returned object, by a place that is free again, and by the close of the pool.

use crate::actions::{Action, Expectation};
use crate::beside::{Gated, tries};
use crate::items::Failing;
use std::alloc::Global;
use std::process::Abort;
use std::sync::Wait;
use std::thread::Threads;

/// One place. A lent object is abandoned at once.
const SETTINGS: &str = "maxTotal = 1

[abandoned]
removeAbandonedOnMaintenance = true
removeAbandonedTimeoutMillis = 0
";

// One caller takes the only place, and ends the wait of the other, whose first entry, the third of the journal, records
// that it waits.
fn wakes<R: Threads + Wait + Abort + Sync>(
    rt: &R,
    alloc: Global,
    ending: Expectation,
    has_come: Action,
    came: (&'static str, u64),
) {
    let ends = [
        (Action::Borrow, "lent", 0),
        (Action::UntilSteps(3), "done", 0),
        ending,
        (has_come, "done", 0),
    ];
    let (word, number) = came;
    let waits = [
        (Action::UntilSteps(2), "done", 0),
        (Action::Borrow, word, number),
    ];
    let parts = [ends.as_slice(), waits.as_slice(), [].as_slice()];
    tries(rt, alloc, SETTINGS, Failing::Never, Gated::Nothing, parts);
}

#[test]
fn what_comes_back_goes_to_who_waits(rt: HostRuntime) {
    let ending = (Action::GiveBack, "parked", 0);
    wakes(&rt, rt.alloc(), ending, Action::UntilLent, ("lent", 0));
}

#[test]
fn the_place_of_a_broken_object_goes_to_who_waits(rt: HostRuntime) {
    let ending = (Action::Invalidate, "destroyed", 0);
    wakes(&rt, rt.alloc(), ending, Action::UntilLent, ("lent", 1));
}

#[test]
fn the_place_of_a_forgotten_object_goes_to_who_waits(rt: HostRuntime) {
    let ending = (Action::Reclaim, "count", 1);
    wakes(&rt, rt.alloc(), ending, Action::UntilLent, ("lent", 1));
}

#[test]
fn who_waits_learns_of_the_end(rt: HostRuntime) {
    let ending = (Action::Close, "count", 0);
    wakes(
        &rt,
        rt.alloc(),
        ending,
        Action::UntilSteps(5),
        ("closed", 0),
    );
}
