//! One life of a pool, with two callers in one thread. The journal's length is tested after each call.
ghost use Rattle.std.specs.Prelude.{◌≡◌};

use crate::actions::{Action, Expectation, copied, expect_equal, goes_through};
use crate::clocks::TestClock;
use crate::items::{Failing, Item, Items, Record, Waiting};
use crate::openings::{NUMBER, Pool, finished, open, pair, settings_of, unopened};
use pool_core::Core;
use pool_settings::Settings;
use pool_shared::{Caller, FinishFault, PoolBrand, UnopenedPool};
use pool_stats::Counts;
use std::alloc::Global;
use std::marker::Brand;
use std::process::Abort;
use std::sync::Wait;

// The first caller borrows, notes a use and returns; maintains the idle objects, and clears them.
const FIRST: [Expectation; 26] = [
    (Action::Borrow, "lent", 0),
    (Action::Steps, "steps", 2),
    (Action::Idle, "idle", 0),
    (Action::Lent, "lent", 1),
    (Action::Reserved, "reserved", 0),
    (Action::Created, "created", 1),
    (Action::Destroyed, "destroyed", 0),
    (Action::Evicted, "evicted", 0),
    (Action::Reclaimed, "reclaimed", 0),
    (Action::Touch, "noted", 0),
    (Action::Steps, "steps", 3),
    (Action::GiveBack, "parked", 0),
    (Action::Steps, "steps", 5),
    (Action::Add, "idle", 0),
    (Action::Steps, "steps", 7),
    (Action::Fill, "count", 0),
    (Action::Steps, "steps", 8),
    (Action::Evict, "examined", 2),
    (Action::Steps, "steps", 11),
    (Action::Reclaim, "count", 0),
    (Action::Steps, "steps", 12),
    (Action::Maintain, "done", 0),
    (Action::Steps, "steps", 17),
    (Action::Clear, "count", 2),
    (Action::Steps, "steps", 22),
    (Action::Held, "nothing held", 0),
];

fn first() -> &'static [Expectation] {
    &FIRST
}

// The second caller borrows, and invalidates the object.
const SECOND: [Expectation; 4] = [
    (Action::Borrow, "lent", 2),
    (Action::Steps, "steps", 24),
    (Action::Invalidate, "destroyed", 0),
    (Action::Steps, "steps", 26),
];

fn second() -> &'static [Expectation] {
    &SECOND
}

// The first caller closes the pool, and can borrow no more.
const END: [Expectation; 2] = [(Action::Close, "count", 0), (Action::Steps, "steps", 27)];

fn end() -> &'static [Expectation] {
    &END
}

const BEHIND_THE_END: [Expectation; 2] = [
    (Action::Borrow, "closed", 0),
    (Action::Steps, "steps", 28),
];

fn behind_the_end() -> &'static [Expectation] {
    &BEHIND_THE_END
}

// Runs the rows of each caller in turn.
fn takes_parts<B: PoolBrand, R: Wait + Abort>(
    rt: &R,
    alloc: Global,
    pool: &Pool<B>,
    zero: &mut Caller<B>,
    one: &mut Caller<B>,
) {
    let mut held = None;
    goes_through(rt, pool, zero, &mut held, first());
    goes_through(rt, pool, one, &mut held, second());
    pool.meet(rt, zero, one);
    goes_through(rt, pool, zero, &mut held, end());
    expect_equal(rt, copied(rt, alloc, pool, zero), 27);
    goes_through(rt, pool, zero, &mut held, behind_the_end());
}

// The pool is not finished without the second caller.
fn lacks_a_caller<'a, B: PoolBrand, R: Wait + Abort>(
    rt: &R,
    pool: Pool<'a, B>,
    callers: Vec<Caller<B>>,
) -> (Pool<'a, B>, Vec<Caller<B>>) {
    match pool.finish(rt, callers) {
        Err((FinishFault::CallersMissing, pool, callers)) => (pool, callers),
        Ok(_) => panic!(rt; "finished without a caller"),
    }
}

// Tests the core that is left of the pool.
fn comes_to(rt: &impl Abort, core: &Core<Item>) {
    expect_equal(rt, core.journal().len(), 28);
    let counts = Counts {
        steps: 28,
        idle: 0,
        lent: 0,
        reserved: 0,
        created: 3,
        destroyed: 3,
        evicted: 0,
        reclaimed: 0,
    };
    expect_equal(rt, core.counts(), counts);
}

// The pool is finished once both callers are back.
fn finishes<B: PoolBrand, R: Wait + Abort>(
    rt: &R,
    alloc: Global,
    pool: Pool<B>,
    zero: Caller<B>,
    one: Caller<B>,
) {
    let mut callers = Vec::new(alloc);
    callers.push(zero).expect(rt, "the first caller");
    let (pool, mut callers) = lacks_a_caller(rt, pool, callers);
    callers.push(one).expect(rt, "the second caller");
    comes_to(rt, &finished(rt, pool, callers));
}

fn lives<B: PoolBrand, R: Wait + Abort>(
    rt: &R,
    alloc: Global,
    unopened: UnopenedPool,
    settings: Settings,
    items: Items,
)
    requires { (unopened ≡ B.table) × (settings ≡ B.settings) × (2 ≡ B.callers) }
{
    let clock = TestClock::Still;
    let (pool, callers) = open::<B, R>(rt, alloc, unopened, settings, NUMBER, 2, items, clock);
    let (mut zero, mut one) = pair(rt, callers);
    takes_parts(rt, alloc, &pool, &mut zero, &mut one);
    finishes(rt, alloc, pool, zero, one);
}

#[test]
fn two_callers_live_through_all_calls(rt: HostRuntime) {
    let unopened = unopened(&rt, rt.alloc());
    let settings = settings_of(&rt, rt.alloc(), "minIdle = 1");
    let record = Record::new(&rt, rt.alloc(), 8);
    let items = Items {
        record: &record,
        failing: Failing::Never,
        waiting: Waiting::Nowhere,
    };
    lives::<Brand, _>(&rt, rt.alloc(), unopened, settings, items);
    assert!(rt; record.is_even());
}
