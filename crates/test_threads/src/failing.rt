//! A factory whose calls fail in turn: no call leaves an object half-processed, and each object is destroyed once.
ghost use Rattle.std.specs.Prelude.{◌≡◌};

use crate::actions::{
    Action, Expectation, borrows, counts, does, expect_equal, gives_back, goes_through,
};
use crate::clocks::TestClock;
use crate::items::{Failing, Items, Record, Waiting};
use crate::openings::{NUMBER, Pool, open, settings_of, single, unopened};
use pool_settings::Settings;
use pool_shared::{Caller, PoolBrand, UnopenedPool};
use std::alloc::Global;
use std::marker::Brand;
use std::process::Abort;
use std::sync::Wait;

const ALL_TESTS: &str =
    "testOnCreate = true\ntestOnBorrow = true\ntestOnReturn = true\ntestWhileIdle = true\n";

/// The number of calls of the factory that can fail in the test, if none does: 4 and 2 for the first loan, 2 and 2 for
/// the second, 3 for the addition, 3 for the idle test of each of the two objects.
const CALLS: u64 = 19;

const ONE_LENT: [Expectation; 2] = [(Action::Reserved, "reserved", 0), (Action::Lent, "lent", 1)];

const NONE_LENT: [Expectation; 2] = [(Action::Reserved, "reserved", 0), (Action::Lent, "lent", 0)];

const NONE_RESERVED: [Expectation; 1] = [(Action::Reserved, "reserved", 0)];

// Borrows, and returns the lent object.
fn borrows_and_gives_back<B: PoolBrand, R: Wait + Abort>(
    rt: &R,
    pool: &Pool<B>,
    me: &mut Caller<B>,
) {
    let mut held = None;
    borrows(rt, pool, me, &mut held);
    if held.is_some() {
        goes_through(rt, pool, me, &mut held, &ONE_LENT);
        gives_back(rt, pool, me, &mut held);
        assert!(rt; held.is_none());
    }
    goes_through(rt, pool, me, &mut held, &NONE_LENT);
}

// Whether a word is the result of an eviction run.
fn is_run(word: &str) -> bool {
    word == "examined" || word == "all destroyed" || word == "some destroyed"
}

// Adds an object, examines the idle ones, and closes the pool.
fn adds_and_ends<B: PoolBrand, R: Wait + Abort>(rt: &R, pool: &Pool<B>, me: &mut Caller<B>) {
    let mut held = None;
    does(rt, pool, me, &mut held, Action::Add);
    goes_through(rt, pool, me, &mut held, &NONE_RESERVED);
    let (word, _) = does(rt, pool, me, &mut held, Action::Evict);
    assert!(rt; is_run(word));
    goes_through(rt, pool, me, &mut held, &NONE_RESERVED);
    let (word, _) = does(rt, pool, me, &mut held, Action::Close);
    assert!(rt; word == "count");
    let counts = counts(rt, pool, me);
    expect_equal(rt, counts.reserved, 0);
    expect_equal(rt, counts.destroyed, counts.created);
}

fn lives<B: PoolBrand, R: Wait + Abort>(
    rt: &R,
    alloc: Global,
    unopened: UnopenedPool,
    settings: Settings,
    items: Items,
)
    requires { (unopened ≡ B.table) × (settings ≡ B.settings) × (1 ≡ B.callers) }
{
    let clock = TestClock::Still;
    let (pool, callers) = open::<B, R>(rt, alloc, unopened, settings, NUMBER, 1, items, clock);
    let mut me = single(rt, callers);
    borrows_and_gives_back(rt, &pool, &mut me);
    borrows_and_gives_back(rt, &pool, &mut me);
    adds_and_ends(rt, &pool, &mut me);
}

// Tests that each object was destroyed once, and that the call with this number was made, if there is one.
fn has_failed(rt: &impl Abort, record: &Record, number: u64) {
    assert!(rt; record.is_even(), "at {number}");
    assert_eq!(rt; record.calls() < number, number > CALLS, "at {number}");
}

#[test]
fn each_call_of_the_factory_fails_once(rt: HostRuntime) {
    let settings = settings_of(&rt, rt.alloc(), ALL_TESTS);
    for number in 1..=CALLS + 1 {
        let unopened = unopened(&rt, rt.alloc());
        let record = Record::new(&rt, rt.alloc(), 8);
        let items = Items {
            record: &record,
            failing: Failing::Nth(number),
            waiting: Waiting::Nowhere,
        };
        lives::<Brand, _>(&rt, rt.alloc(), unopened, settings, items);
        has_failed(&rt, &record, number);
    }
}
