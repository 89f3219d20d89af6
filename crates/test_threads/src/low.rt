//! Journals that are cut if little room is left.
//! The room is the limit less the stored and the outstanding entries: one to close the pool, four for a lent object,
//! two for an idle one.
ghost use Rattle.std.specs.Prelude.{◌≡◌};

use crate::actions::{Action, Expectation, Reply, cuts_below, does, expect_equal, expects};
use crate::clocks::TestClock;
use crate::cutting::plays_again;
use crate::items::{Failing, Item, Items, Record, Waiting};
use crate::openings::{NUMBER, Pool, finished, open, settings_of, unopened};
use pool_core::Core;
use pool_journal::Segment;
use pool_settings::Settings;
use pool_shared::{Caller, Lent, PoolBrand, UnopenedPool};
use std::alloc::Global;
use std::marker::Brand;
use std::process::Abort;
use std::sync::Wait;

// The room is 6; 0; 2 after a cut; 1; still 1 after a return, which has two entries and leaves two fewer outstanding; 4
// after a cut; 0; and 2 after a cut.
const SMALL: [Expectation; 17] = [
    (Action::CutBelow(6), "room", 0),
    (Action::Borrow, "lent", 0),
    (Action::CutBelow(0), "room", 0),
    (Action::Touch, "full", 0),
    (Action::CutBelow(1), "cut", 2),
    (Action::CutBelow(2), "room", 0),
    (Action::Touch, "noted", 0),
    (Action::CutBelow(1), "room", 0),
    (Action::GiveBack, "parked", 0),
    (Action::CutBelow(1), "room", 0),
    (Action::CutBelow(2), "cut", 3),
    (Action::CutBelow(4), "room", 0),
    (Action::Borrow, "lent", 0),
    (Action::CutBelow(u64::MAX), "cut", 2),
    (Action::CutBelow(u64::MAX), "cut", 0),
    (Action::GiveBack, "parked", 0),
    (Action::CutBelow(2), "room", 0),
];

fn small() -> &'static [Expectation] {
    &SMALL
}

// The room is 4294967295, and then 4294967289.
const GREATEST: [Expectation; 4] = [
    (Action::CutBelow(4_294_967_295), "room", 0),
    (Action::Borrow, "lent", 0),
    (Action::CutBelow(4_294_967_289), "room", 0),
    (Action::CutBelow(4_294_967_290), "cut", 2),
];

fn greatest() -> &'static [Expectation] {
    &GREATEST
}

/// Many objects stay idle.
const MANY: &str = "minIdle = 20000
maxIdle = -1
maxTotal = -1
";

// The limit is a million entries. Stored are two for each of 20,000 objects, and one that records that they are enough;
// outstanding are two for each, and one.
const STOCK: [Expectation; 3] = [
    (Action::Fill, "count", 20_000),
    (Action::CutBelow(919_998), "room", 0),
    (Action::CutBelow(919_999), "cut", 40_001),
];

fn stock() -> &'static [Expectation] {
    &STOCK
}

// Does the action of a row, or a cut.
fn comes_to<B: PoolBrand, R: Wait + Abort>(
    rt: &R,
    alloc: Global,
    pool: &Pool<B>,
    me: &mut Caller<B>,
    held: &mut Option<Lent<Item>>,
    segments: &mut Vec<Segment>,
    action: Action,
) -> Reply {
    match action {
        Action::CutBelow(least) => cuts_below(rt, alloc, pool, me, segments, least),
        _ => does(rt, pool, me, held, action),
    }
}

// Does the actions of rows, and returns the segments that were cut.
fn goes_through_cuts<B: PoolBrand, R: Wait + Abort>(
    rt: &R,
    alloc: Global,
    pool: &Pool<B>,
    me: &mut Caller<B>,
    rows: &[Expectation],
) -> Vec<Segment> {
    let mut segments = Vec::new(alloc);
    let mut held = None;
    for &(action, word, number) in rows {
        let reported = comes_to(rt, alloc, pool, me, &mut held, &mut segments, action);
        expects(rt, reported, (word, number));
    }
    segments
}

// Returns the core at the end, and the segments that one caller cut.
fn lives<B: PoolBrand, R: Wait + Abort>(
    rt: &R,
    alloc: Global,
    unopened: UnopenedPool,
    settings: Settings,
    items: Items,
    rows: &[Expectation],
) -> (Core<Item>, Vec<Segment>)
    requires { (unopened ≡ B.table) × (settings ≡ B.settings) × (1 ≡ B.callers) }
{
    let clock = TestClock::Still;
    let (pool, mut callers) = open::<B, R>(rt, alloc, unopened, settings, NUMBER, 1, items, clock);
    let me = callers.last_mut().expect(rt, "a caller");
    let segments = goes_through_cuts(rt, alloc, &pool, me, rows);
    (finished(rt, pool, callers), segments)
}

// Does the actions of rows with the settings of a text. The segments and the stored entries are one history: a new core
// that takes its steps has the same counts.
fn tries<R: Wait + Abort>(rt: &R, alloc: Global, settings: &str, rows: &[Expectation]) {
    let unopened = unopened(rt, alloc);
    let settings = settings_of(rt, alloc, settings);
    let record = Record::new(rt, alloc, 8);
    let items = Items {
        record: &record,
        failing: Failing::Never,
        waiting: Waiting::Nowhere,
    };
    let (core, segments) = lives::<Brand, R>(rt, alloc, unopened, settings, items, rows);
    let counts = plays_again(rt, alloc, settings, &segments, core.journal());
    expect_equal(rt, core.counts(), counts);
}

#[test]
fn a_journal_is_cut_where_little_room_is_left(rt: HostRuntime) {
    for (settings, rows) in [
        ("journalLimit = 7", small()),
        ("journalLimit = 4294967296", greatest()),
        (MANY, stock()),
    ] {
        tries(&rt, rt.alloc(), settings, rows);
    }
}
