//! A borrow whose wait has a limit. At each wake it looks at the clock, which the test sets.

use crate::actions::{Action, Expectation};
use crate::beside::{Gated, Parts, tries};
use crate::items::Failing;
use crate::turns::Flag;
use std::alloc::Global;
use std::process::Abort;
use std::sync::Wait;
use std::thread::Threads;

// Settings with a limit, and the time at which a borrow that began at time 0 is woken.
type Waking = (&'static str, u64);

// One millisecond before the limit.
const BEFORE: [Waking; 3] = [
    ("maxTotal = 1\njournalLimit = 100\nmaxWaitMillis = 1", 0),
    ("maxTotal = 1\njournalLimit = 100\nmaxWaitMillis = 5", 4),
    (
        "maxTotal = 1\njournalLimit = 100\nmaxWaitMillis = 9007199254740992",
        9_007_199_254_740_991,
    ),
];

fn before() -> &'static [Waking] {
    &BEFORE
}

// At the limit, and after it.
const REACHED: [Waking; 4] = [
    ("maxTotal = 1\njournalLimit = 100\nmaxWaitMillis = 1", 1),
    ("maxTotal = 1\njournalLimit = 100\nmaxWaitMillis = 5", 5),
    ("maxTotal = 1\njournalLimit = 100\nmaxWaitMillis = 5", 6),
    (
        "maxTotal = 1\njournalLimit = 100\nmaxWaitMillis = 9007199254740992",
        9_007_199_254_740_992,
    ),
];

fn reached() -> &'static [Waking] {
    &REACHED
}

// Runs the callers with a factory that never fails.
fn passes<R: Threads + Wait + Abort + Sync>(rt: &R, alloc: Global, settings: &str, parts: Parts) {
    tries(rt, alloc, settings, Failing::Never, Gated::Nothing, parts);
}

// Caller 0 takes the only object, and caller 1 waits for it: the third entry of the journal records this. The journal
// would be full after a while if caller 1 did not sleep. Then caller 0 sets the clock and ends the wait.
fn ends_wait<R: Threads + Wait + Abort + Sync>(
    rt: &R,
    alloc: Global,
    waking: Waking,
    ending: Expectation,
    word: &'static str,
) {
    let (settings, time) = waking;
    let ends = [
        (Action::Borrow, "lent", 0),
        (Action::UntilSteps(3), "done", 0),
        (Action::Watch(10_000), "done", 10_000),
        (Action::SetTime(time), "done", 0),
        ending,
        (Action::UntilSet(Flag::Answered), "done", 0),
    ];
    let waits = [
        (Action::UntilSteps(2), "done", 0),
        (Action::Borrow, word, 0),
        (Action::Set(Flag::Answered), "done", 0),
    ];
    let parts = [ends.as_slice(), waits.as_slice(), [].as_slice()];
    passes(rt, alloc, settings, parts);
}

// Ends a wait before each limit.
fn ends_each_wait<R: Threads + Wait + Abort + Sync>(
    rt: &R,
    alloc: Global,
    ending: Expectation,
    word: &'static str,
) {
    for waking in before() {
        ends_wait(rt, alloc, *waking, ending, word);
    }
}

#[test]
fn a_return_ends_a_wait_with_a_limit(rt: HostRuntime) {
    let ending = (Action::GiveBack, "parked", 0);
    ends_each_wait(&rt, rt.alloc(), ending, "lent");
}

#[test]
fn a_close_ends_a_wait_with_a_limit(rt: HostRuntime) {
    let ending = (Action::Close, "count", 0);
    ends_each_wait(&rt, rt.alloc(), ending, "closed");
}

/// The actions of callers 1 and 2 on the only object, and those of caller 0 once it has returned it.
#[derive(Clone, Copy)]
struct Contest {
    rows: &'static [Expectation],
    looks: Action,
}

// Caller 0 returns the only object at this time, while callers 1 and 2 wait for it since time 0: the third and the
// fourth entry of the journal record this. Both are woken, and one of them gets the object.
fn returns_to_two<R: Threads + Wait + Abort + Sync>(
    rt: &R,
    alloc: Global,
    waking: Waking,
    contest: Contest,
) {
    let (settings, time) = waking;
    let returns = [
        (Action::Borrow, "lent", 0),
        (Action::UntilSteps(4), "done", 0),
        (Action::SetTime(time), "done", 0),
        (Action::GiveBack, "parked", 0),
        (contest.looks, "done", 0),
    ];
    let parts = [returns.as_slice(), contest.rows, contest.rows];
    passes(rt, alloc, settings, parts);
}

// Once a caller has the object, the journal has eight entries. The caller keeps the object until the ninth records that
// the other waits on. Once that one has the object too, the journal has 13.
const WAITS_ON: [Expectation; 5] = [
    (Action::UntilSteps(2), "done", 0),
    (Action::Borrow, "lent", 0),
    (Action::UntilSteps(9), "done", 0),
    (Action::GiveBack, "parked", 0),
    (Action::UntilSteps(13), "done", 0),
];

fn waits_on() -> Contest {
    Contest {
        rows: &WAITS_ON,
        looks: Action::UntilSteps(8),
    }
}

#[test]
fn a_wake_before_the_limit_is_no_timeout(rt: HostRuntime) {
    for waking in before() {
        returns_to_two(&rt, rt.alloc(), *waking, waits_on());
    }
}

// One caller keeps the object until the other has timed out.
const TIMES_OUT: [Expectation; 4] = [
    (Action::UntilSteps(2), "done", 0),
    (Action::BorrowOrTimeOut, "done", 0),
    (Action::UntilSet(Flag::Lent), "done", 0),
    (Action::UntilSet(Flag::TimedOut), "done", 0),
];

fn times_out() -> Contest {
    Contest {
        rows: &TIMES_OUT,
        looks: Action::UntilSet(Flag::TimedOut),
    }
}

#[test]
fn a_wake_at_the_limit_is_a_timeout(rt: HostRuntime) {
    for waking in reached() {
        returns_to_two(&rt, rt.alloc(), *waking, times_out());
    }
}

const LENDS_THE_ONLY_ONE: [Expectation; 2] = [
    (Action::Borrow, "lent", 0),
    (Action::UntilSet(Flag::Answered), "done", 0),
];

// The one entry of the borrow is the third of the journal.
const TIMES_OUT_AT_ONCE: [Expectation; 4] = [
    (Action::UntilSteps(2), "done", 0),
    (Action::Borrow, "timed out", 0),
    (Action::Steps, "steps", 3),
    (Action::Set(Flag::Answered), "done", 0),
];

const NOTHING: [Expectation; 0] = [];

fn without_a_wait() -> Parts<'static> {
    [&LENDS_THE_ONLY_ONE, &TIMES_OUT_AT_ONCE, &NOTHING]
}

#[test]
fn a_limit_of_0_is_no_wait(rt: HostRuntime) {
    let settings = "maxTotal = 1\nmaxWaitMillis = 0";
    passes(&rt, rt.alloc(), settings, without_a_wait());
}
