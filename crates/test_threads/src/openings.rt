//! Opens the pools of the tests, and ends them.
ghost use Rattle.std.specs.Prelude.{◌≡◌};

use crate::clocks::TestClock;
use crate::items::{Item, Items};
use pool_core::Core;
use pool_settings::Settings;
use pool_shared::{Caller, PoolBrand, SharedPool, UnopenedPool};
use std::alloc::Global;
use std::process::Abort;
use std::sync::Wait;

/// The number of a pool, if it does not matter.
pub const NUMBER: u64 = 5;

pub type Pool<'a, B> = SharedPool<Item, u8, Items<'a>, TestClock<'a>, B>;

/// Returns the cell of a new pool.
pub fn unopened(rt: &impl Abort, alloc: Global) -> UnopenedPool {
    UnopenedPool::new(alloc).expect(rt, "a pool to open")
}

/// Returns the settings of a text.
pub fn settings_of(rt: &impl Abort, alloc: Global, text: &str) -> Settings {
    Settings::from_text(alloc, text).expect(rt, "settings")
}

/// Opens a new pool with this number, and returns it with its callers.
pub fn open<'a, B: PoolBrand, R: Wait + Abort>(
    rt: &R,
    alloc: Global,
    unopened: UnopenedPool,
    settings: Settings,
    number: u64,
    callers: u32,
    items: Items<'a>,
    clock: TestClock<'a>,
) -> (Pool<'a, B>, Vec<Caller<B>>)
    requires { (unopened ≡ B.table) × (settings ≡ B.settings) × (callers ≡ B.callers) }
{
    Pool::<B>::open(rt, alloc, unopened, settings, number, callers, items, clock).expect(
        rt, "a pool",
    )
}

/// Ends a pool whose callers are all back, and returns its core.
pub fn finished<B: PoolBrand, R: Wait + Abort>(
    rt: &R,
    pool: Pool<B>,
    callers: Vec<Caller<B>>,
) -> Core<Item> {
    pool.finish(rt, callers).ok().expect(rt, "a core")
}

/// Returns the only caller.
pub fn single<B: PoolBrand>(rt: &impl Abort, callers: Vec<Caller<B>>) -> Caller<B> {
    let mut callers = callers;
    callers.pop().expect(rt, "a caller")
}

/// Returns the callers 0 and 1, of two.
pub fn pair<B: PoolBrand>(rt: &impl Abort, callers: Vec<Caller<B>>) -> (Caller<B>, Caller<B>) {
    let mut callers = callers;
    let one = callers.pop().expect(rt, "two callers");
    let zero = callers.pop().expect(rt, "two callers");
    (zero, one)
}

/// Returns the callers 0, 1 and 2, of three.
pub fn three<B: PoolBrand>(
    rt: &impl Abort,
    callers: Vec<Caller<B>>,
) -> (Caller<B>, Caller<B>, Caller<B>) {
    let mut callers = callers;
    let two = callers.pop().expect(rt, "three callers");
    let one = callers.pop().expect(rt, "three callers");
    let zero = callers.pop().expect(rt, "three callers");
    (zero, one, two)
}
