//! A pool, its callers and a lent object are dropped in each order, and no object stays.
ghost use Rattle.std.specs.Prelude.{◌≡◌};

use crate::actions::expect_equal;
use crate::clocks::TestClock;
use crate::openings::{NUMBER, unopened};
use pool_settings::Settings;
use pool_shared::{Caller, Factory, Lent, PoolBrand, SharedPool, UnopenedPool};
use std::alloc::{AllocError, Global};
use std::marker::Brand;
use std::process::Abort;
use std::sync::Wait;
use std::sync::atomic::{AtomicU64, Ordering};

/// An object with its own memory. It is counted until it is dropped.
struct Counted<'a> {
    present: &'a AtomicU64,
    bytes: Vec<u8>,
}

impl Drop for Counted<'_> {
    fn drop(self) {
        let Counted { present, bytes: _ } = self;
        present.fetch_sub(1, Ordering::SeqCst);
    }
}

#[derive(Drop)]
struct Counting<'a> {
    alloc: Global,
    present: &'a AtomicU64,
}

impl<'a> Factory<Counted<'a>, AllocError> for Counting<'a> {
    ghost active = { λ v. v ≡ v };

    ghost valid = { λ v. v ≡ v };

    ghost passive = { λ v. v ≡ v };

    ghost from_make = { λ f. f ≡ f };

    ghost from_activate = { λ f. f ≡ f };

    ghost from_passivate = { λ f. f ≡ f };

    fn make(&self, id: u64) -> Result<Counted<'a>, AllocError> {
        let bytes = Vec::from_slice(self.alloc, &id.to_le_bytes())?;
        let present = self.present;
        present.fetch_add(1, Ordering::SeqCst);
        Ok(Counted { present, bytes })
    }

    fn activate(&self, value: &mut Counted<'a>) -> Result<(), AllocError> {
        value.bytes.push(1)?;
        Ok(())
    }

    fn validate(&self, value: &Counted<'a>) -> bool {
        !value.bytes.is_empty()
    }

    fn passivate(&self, value: &mut Counted<'a>) -> Result<(), AllocError> {
        let _ = value;
        Ok(())
    }

    fn destroy(&self, value: Counted<'a>) {
        drop(value);
    }
}

type Counts<'a, B> = SharedPool<Counted<'a>, AllocError, Counting<'a>, TestClock<'static>, B>;

/// The orders in which the three are dropped.
#[derive(Clone, Copy, Debug)]
enum Order {
    PoolCallersLent,
    PoolLentCallers,
    CallersPoolLent,
    CallersLentPool,
    LentPoolCallers,
    LentCallersPool,
}

const ORDERS: [Order; 6] = [
    Order::PoolCallersLent,
    Order::PoolLentCallers,
    Order::CallersPoolLent,
    Order::CallersLentPool,
    Order::LentPoolCallers,
    Order::LentCallersPool,
];

fn drop_in_order<P: Drop, C: Drop, L: Drop>(order: Order, pool: P, callers: C, lent: L) {
    match order {
        Order::PoolCallersLent => {
            drop(pool);
            drop(callers);
            drop(lent);
        }
        Order::PoolLentCallers => {
            drop(pool);
            drop(lent);
            drop(callers);
        }
        Order::CallersPoolLent => {
            drop(callers);
            drop(pool);
            drop(lent);
        }
        Order::CallersLentPool => {
            drop(callers);
            drop(lent);
            drop(pool);
        }
        Order::LentPoolCallers => {
            drop(lent);
            drop(pool);
            drop(callers);
        }
        Order::LentCallersPool => {
            drop(lent);
            drop(callers);
            drop(pool);
        }
    }
}

// Borrows an object.
fn borrows<'a, B: PoolBrand, R: Wait + Abort>(
    rt: &R,
    pool: &Counts<'a, B>,
    me: &mut Caller<B>,
) -> Lent<Counted<'a>> {
    pool.borrow(rt, me).ok().expect(rt, "an object")
}

// Returns an object to the pool.
fn gives_back<'a, B: PoolBrand, R: Wait + Abort>(
    rt: &R,
    pool: &Counts<'a, B>,
    me: &mut Caller<B>,
    lent: Lent<Counted<'a>>,
) {
    let is_taken = pool.give_back(rt, me, lent).is_ok();
    assert!(rt; is_taken, "not taken back");
}

// The last caller borrows two objects and returns one to the pool. The result is the other one.
fn lends_one<'a, B: PoolBrand, R: Wait + Abort>(
    rt: &R,
    pool: &Counts<'a, B>,
    callers: &mut Vec<Caller<B>>,
) -> Lent<Counted<'a>> {
    let me = callers.last_mut().expect(rt, "a caller");
    let lent = borrows(rt, pool, me);
    let other = borrows(rt, pool, me);
    gives_back(rt, pool, me, other);
    lent
}

// A pool with an idle object and a lent one is dropped with them.
fn drops<B: PoolBrand, R: Wait + Abort>(
    rt: &R,
    alloc: Global,
    unopened: UnopenedPool,
    settings: Settings,
    present: &AtomicU64,
    order: Order,
)
    requires { (unopened ≡ B.table) × (settings ≡ B.settings) × (2 ≡ B.callers) }
{
    let objects = Counting { alloc, present };
    let clock = TestClock::Still;
    let (pool, mut callers) = Counts::<B>::open(
        rt, alloc, unopened, settings, NUMBER, 2, objects, clock,
    ).expect(rt, "a pool");
    let lent = lends_one(rt, &pool, &mut callers);
    drop_in_order(order, pool, callers, lent);
}

#[test]
fn nothing_stays_in_any_order(rt: HostRuntime) {
    let present = AtomicU64::new(0);
    for order in ORDERS {
        let unopened = unopened(&rt, rt.alloc());
        drops::<Brand, _>(
            &rt,
            rt.alloc(),
            unopened,
            Settings::default(),
            &present,
            order,
        );
        assert_eq!(rt; present.load(Ordering::SeqCst), 0, "at {order:?}");
    }
}

// A pool is finished while an object is lent, and the core is dropped with the idle one.
fn finishes<B: PoolBrand, R: Wait + Abort>(
    rt: &R,
    alloc: Global,
    unopened: UnopenedPool,
    settings: Settings,
    present: &AtomicU64,
)
    requires { (unopened ≡ B.table) × (settings ≡ B.settings) × (1 ≡ B.callers) }
{
    let objects = Counting { alloc, present };
    let clock = TestClock::Still;
    let (pool, mut callers) = Counts::<B>::open(
        rt, alloc, unopened, settings, NUMBER, 1, objects, clock,
    ).expect(rt, "a pool");
    let lent = lends_one(rt, &pool, &mut callers);
    let core = pool.finish(rt, callers).ok().expect(rt, "a core");
    drop(core);
    drop(lent);
}

#[test]
fn nothing_stays_of_a_finished_pool(rt: HostRuntime) {
    let present = AtomicU64::new(0);
    let unopened = unopened(&rt, rt.alloc());
    finishes::<Brand, _>(&rt, rt.alloc(), unopened, Settings::default(), &present);
    expect_equal(&rt, present.load(Ordering::SeqCst), 0);
}
