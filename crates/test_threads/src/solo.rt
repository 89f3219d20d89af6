//! Runs the actions of a test with the only caller of a new pool.
ghost use Rattle.std.specs.Prelude.{◌≡◌};

use crate::actions::{Expectation, goes_through};
use crate::clocks::TestClock;
use crate::items::{Failing, Items, Record, Waiting};
use crate::openings::{NUMBER, open, settings_of, single, unopened};
use pool_settings::Settings;
use pool_shared::{PoolBrand, UnopenedPool};
use std::alloc::Global;
use std::marker::Brand;
use std::process::Abort;
use std::sync::Wait;

fn lives<B: PoolBrand, R: Wait + Abort>(
    rt: &R,
    alloc: Global,
    unopened: UnopenedPool,
    settings: Settings,
    items: Items,
    rows: &[Expectation],
)
    requires { (unopened ≡ B.table) × (settings ≡ B.settings) × (1 ≡ B.callers) }
{
    let clock = TestClock::Still;
    let (pool, callers) = open::<B, R>(rt, alloc, unopened, settings, NUMBER, 1, items, clock);
    let mut me = single(rt, callers);
    let mut held = None;
    goes_through(rt, &pool, &mut me, &mut held, rows);
}

/// Does the actions of rows with this factory and the settings of a text. Returns whether each created object was
/// destroyed once.
pub fn tries<R: Wait + Abort>(
    rt: &R,
    alloc: Global,
    settings: &str,
    failing: Failing,
    rows: &[Expectation],
) -> bool {
    let unopened = unopened(rt, alloc);
    let settings = settings_of(rt, alloc, settings);
    let record = Record::new(rt, alloc, 8);
    let items = Items {
        record: &record,
        failing,
        waiting: Waiting::Nowhere,
    };
    lives::<Brand, R>(rt, alloc, unopened, settings, items, rows);
    record.is_even()
}
