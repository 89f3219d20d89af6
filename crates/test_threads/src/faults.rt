//! The errors of each call, by one caller of a new pool.
ghost use Rattle.std.specs.Prelude.{◌≡◌};

use crate::actions::Action;
use crate::clocks::TestClock;
use crate::items::{
    Call, Failing, Items, NOT_ACTIVATED, NOT_MADE, NOT_PASSIVATED, Record, Waiting,
};
use crate::openings::{NUMBER, Pool, unopened};
use crate::solo::tries;
use pool_settings::Settings;
use pool_shared::{OpenFault, PoolBrand, UnopenedPool};
use std::alloc::Global;
use std::marker::Brand;
use std::sync::Wait;

// Opens a pool for this number of callers.
fn opens<B: PoolBrand, R: Wait>(
    rt: &R,
    alloc: Global,
    unopened: UnopenedPool,
    settings: Settings,
    callers: u32,
    record: &Record,
) -> Result<(), OpenFault>
    requires { (unopened ≡ B.table) × (settings ≡ B.settings) × (callers ≡ B.callers) }
{
    let items = Items {
        record,
        failing: Failing::Never,
        waiting: Waiting::Nowhere,
    };
    let clock = TestClock::Still;
    Pool::<B>::open(rt, alloc, unopened, settings, NUMBER, callers, items, clock)?;
    Ok(())
}

#[test]
fn pools_have_1_to_1024_callers(rt: HostRuntime) {
    let record = Record::new(&rt, rt.alloc(), 8);
    for (callers, is_refused) in [(0, true), (1025, true), (1, false), (1024, false)] {
        let unopened = unopened(&rt, rt.alloc());
        let opened = opens::<Brand, _>(
            &rt,
            rt.alloc(),
            unopened,
            Settings::default(),
            callers,
            &record,
        );
        assert!(rt;
            matches!(&opened, Err(OpenFault::CallerCount)) == is_refused,
            "at {callers}"
        );
        assert!(rt; opened.is_ok() != is_refused, "at {callers}");
    }
}

#[test]
fn a_borrow_is_refused(rt: HostRuntime) {
    let never = Failing::Never;
    let untested = Failing::All(Call::Validate);
    for (settings, failing, word, number) in [
        (
            "maxTotal = 0\nblockWhenExhausted = false",
            never,
            "exhausted",
            0,
        ),
        (
            "",
            Failing::All(Call::Make),
            "not made",
            u64::from(NOT_MADE),
        ),
        (
            "testOnCreate = true",
            untested,
            "new one failed its test",
            0,
        ),
        (
            "",
            Failing::All(Call::Activate),
            "not activated",
            u64::from(NOT_ACTIVATED),
        ),
        ("testOnBorrow = true", untested, "failed its test", 0),
        ("journalLimit = 6", never, "full", 0),
        ("journalLimit = 7", never, "lent", 0),
    ] {
        let rows = [(Action::Borrow, word, number)];
        tries(&rt, rt.alloc(), settings, failing, &rows);
    }
}

#[test]
fn what_stays_awake_is_destroyed(rt: HostRuntime) {
    let rows = [
        (Action::Borrow, "lent", 0),
        (Action::GiveBack, "destroyed", 0),
    ];
    let failing = Failing::All(Call::Passivate);
    assert!(rt; tries(&rt, rt.alloc(), "", failing, &rows));
}

#[test]
fn an_addition_is_refused(rt: HostRuntime) {
    let never = Failing::Never;
    for (settings, failing, word, number) in [
        (
            "maxTotal = 0\nblockWhenExhausted = false",
            never,
            "no place",
            0,
        ),
        ("maxTotal = 0\nmaxWaitMillis = 0", never, "no place", 0),
        (
            "",
            Failing::All(Call::Make),
            "not made",
            u64::from(NOT_MADE),
        ),
        (
            "testOnCreate = true",
            Failing::All(Call::Validate),
            "new one failed its test",
            0,
        ),
        (
            "",
            Failing::All(Call::Passivate),
            "not passivated",
            u64::from(NOT_PASSIVATED),
        ),
        ("journalLimit = 4", never, "full", 0),
        ("journalLimit = 5", never, "idle", 0),
    ] {
        let rows = [(Action::Add, word, number)];
        tries(&rt, rt.alloc(), settings, failing, &rows);
    }
}

#[test]
fn a_closed_pool_takes_nothing_on(rt: HostRuntime) {
    let rows = [
        (Action::Close, "count", 0),
        (Action::Evict, "closed", 0),
        (Action::Add, "closed", 0),
        (Action::Fill, "count", 0),
        (Action::Maintain, "closed", 0),
    ];
    tries(&rt, rt.alloc(), "minIdle = 1", Failing::Never, &rows);
}
