//! Which work runs in parallel.
//! Each test waits for a flag that only another thread sets, and gives up after a number of turns.

use crate::actions::{Action, Expectation};
use crate::beside::{Gated, Parts, tries};
use crate::items::Failing;
use crate::turns::Flag;
use std::alloc::Global;
use std::process::Abort;
use std::sync::Wait;
use std::thread::Threads;

// Runs three callers with a factory that never fails.
fn pass<R: Threads + Wait + Abort + Sync>(rt: &R, alloc: Global, gated: Gated, parts: Parts) {
    tries(rt, alloc, "", Failing::Never, gated, parts);
}

const NOTHING: [Expectation; 0] = [];

const BORROWS: [Expectation; 1] = [(Action::Borrow, "lent", 0)];

// Object 0 is made once object 1 is lent.
const OPENS: [Expectation; 3] = [
    (Action::UntilSteps(1), "done", 0),
    (Action::Borrow, "lent", 1),
    (Action::Set(Flag::Gate), "done", 0),
];

fn makes() -> Parts<'static> {
    [&BORROWS, &OPENS, &NOTHING]
}

#[test]
fn objects_are_made_side_by_side(rt: HostRuntime) {
    pass(&rt, rt.alloc(), Gated::Making, makes());
}

// A caller borrows and returns, and reads the counts after each call.
const LOOKS_AFTER_ITSELF: [Expectation; 5] = [
    (Action::Borrow, "lent", 0),
    (Action::Set(Flag::Begun), "done", 0),
    (Action::StepsAtLeast(2), "done", 0),
    (Action::GiveBack, "parked", 0),
    (Action::StepsAtLeast(4), "done", 0),
];

// Another caller reads them once that borrow has its result.
const LOOKS_AT_ANOTHER: [Expectation; 2] = [
    (Action::UntilSet(Flag::Begun), "done", 0),
    (Action::StepsAtLeast(2), "done", 0),
];

fn counts() -> Parts<'static> {
    [&LOOKS_AFTER_ITSELF, &LOOKS_AT_ANOTHER, &NOTHING]
}

#[test]
fn counts_know_what_has_returned(rt: HostRuntime) {
    pass(&rt, rt.alloc(), Gated::Nothing, counts());
}

const RECLAIMS: [Expectation; 1] = [(Action::Reclaim, "count", 0)];

// The clock returns the time, in a critical section, once another caller has read the counts.
const COUNTS: [Expectation; 3] = [
    (Action::UntilSet(Flag::Read), "done", 0),
    (Action::Steps, "steps", 0),
    (Action::Set(Flag::Gate), "done", 0),
];

fn counts_beside() -> Parts<'static> {
    [&RECLAIMS, &COUNTS, &NOTHING]
}

#[test]
fn counts_are_reported_beside_a_section(rt: HostRuntime) {
    pass(&rt, rt.alloc(), Gated::Telling, counts_beside());
}
