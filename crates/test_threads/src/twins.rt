//! Two pools of one kind: an object can be returned only to its own pool.
ghost use Rattle.std.specs.Prelude.{◌≡◌};

use crate::actions::{Action, goes_through};
use crate::clocks::TestClock;
use crate::items::{Failing, Items, Record, Waiting};
use crate::openings::{Pool, open, single, unopened};
use pool_settings::Settings;
use pool_shared::{Caller, PoolBrand, UnopenedPool};
use std::alloc::Global;
use std::marker::Brand;
use std::process::Abort;
use std::sync::Wait;

// Opens a pool with this number, for one caller.
fn opens<'a, B: PoolBrand, R: Wait + Abort>(
    rt: &R,
    alloc: Global,
    unopened: UnopenedPool,
    settings: Settings,
    number: u64,
    record: &'a Record,
) -> (Pool<'a, B>, Caller<B>)
    requires { (unopened ≡ B.table) × (settings ≡ B.settings) × (1 ≡ B.callers) }
{
    let items = Items {
        record,
        failing: Failing::Never,
        waiting: Waiting::Nowhere,
    };
    let clock = TestClock::Still;
    let (pool, callers) = open::<B, R>(rt, alloc, unopened, settings, number, 1, items, clock);
    (pool, single(rt, callers))
}

// An object of a pool with the number 5 is passed to another pool, with this number, which rejects it as not lent, or
// as foreign.
fn is_offered<A: PoolBrand, B: PoolBrand, R: Wait + Abort>(
    rt: &R,
    own: &Pool<A>,
    me: &mut Caller<A>,
    other: &Pool<B>,
    stranger: &mut Caller<B>,
    number: u64,
) {
    let mut held = None;
    let mine = [(Action::Borrow, "lent", 0)];
    goes_through(rt, own, me, &mut held, &mine);
    let why = if number == 5 { "not lent" } else { "foreign" };
    let offered = [
        (Action::Invalidate, why, 0),
        (Action::GiveBack, why, 0),
        (Action::Held, "awake", 0),
    ];
    goes_through(rt, other, stranger, &mut held, &offered);
    let back = [(Action::GiveBack, "parked", 0)];
    goes_through(rt, own, me, &mut held, &back);
}

// Opens both pools.
fn offers<A: PoolBrand, B: PoolBrand, R: Wait + Abort>(
    rt: &R,
    alloc: Global,
    first: UnopenedPool,
    second: UnopenedPool,
    settings: Settings,
    number: u64,
    record: &Record,
)
    requires first { (first ≡ A.table) × (settings ≡ A.settings) × (1 ≡ A.callers) }
    requires second { (second ≡ B.table) × (settings ≡ B.settings) × (1 ≡ B.callers) }
{
    let (own, mut me) = opens::<A, R>(rt, alloc, first, settings, 5, record);
    let (other, mut stranger) = opens::<B, R>(rt, alloc, second, settings, number, record);
    is_offered(rt, &own, &mut me, &other, &mut stranger, number);
}

#[test]
fn objects_go_back_to_their_own_pool(rt: HostRuntime) {
    let a = rt.alloc();
    let record = Record::new(&rt, a, 8);
    let settings = Settings::default();
    for number in [5, 6] {
        let first = unopened(&rt, a);
        let second = unopened(&rt, a);
        offers::<Brand, Brand, _>(&rt, a, first, second, settings, number, &record);
    }
}
