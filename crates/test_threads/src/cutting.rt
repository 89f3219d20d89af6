//! Journals that are cut: by the only caller, and in parallel with two callers that borrow and return.
ghost use Rattle.std.specs.Prelude.{◌≡◌};

use crate::actions::{Action, Expectation, copied, cut, expect_equal, goes_through};
use crate::beside::{Gated, Parts, tries};
use crate::clocks::TestClock;
use crate::items::{Failing, Item, Items, Record, Waiting};
use crate::openings::{NUMBER, Pool, finished, open, settings_of, unopened};
use pool_core::Core;
use pool_journal::{Answer, Base, Entry, Segment};
use pool_settings::Settings;
use pool_shared::{Caller, PoolBrand, UnopenedPool};
use pool_stats::Counts;
use std::alloc::Global;
use std::marker::Brand;
use std::process::Abort;
use std::sync::Wait;

// After a borrow and a return there is room only for the close.
const BEFORE: [Expectation; 3] = [
    (Action::Borrow, "lent", 0),
    (Action::GiveBack, "parked", 0),
    (Action::Borrow, "full", 0),
];

fn before() -> &'static [Expectation] {
    &BEFORE
}

// After the cut there is room again, and the object is still idle.
const BEHIND: [Expectation; 9] = [
    (Action::Steps, "steps", 4),
    (Action::Idle, "idle", 1),
    (Action::Lent, "lent", 0),
    (Action::Reserved, "reserved", 0),
    (Action::Created, "created", 1),
    (Action::Destroyed, "destroyed", 0),
    (Action::Evicted, "evicted", 0),
    (Action::Reclaimed, "reclaimed", 0),
    (Action::Borrow, "lent", 0),
];

fn behind() -> &'static [Expectation] {
    &BEHIND
}

// The first cut returns four entries, before which there are none, and leaves none.
fn cuts_four<B: PoolBrand, R: Wait + Abort>(
    rt: &R,
    alloc: Global,
    pool: &Pool<B>,
    me: &mut Caller<B>,
) {
    let segment = cut(rt, alloc, pool, me).expect(rt, "a segment");
    expect_equal(rt, segment.base.first, 0);
    expect_equal(rt, segment.entries.as_slice().len(), 4);
    expect_equal(rt, copied(rt, alloc, pool, me), 0);
}

fn borrows_behind_a_cut<B: PoolBrand, R: Wait + Abort>(
    rt: &R,
    alloc: Global,
    pool: &Pool<B>,
    me: &mut Caller<B>,
) {
    let mut held = None;
    goes_through(rt, pool, me, &mut held, before());
    cuts_four(rt, alloc, pool, me);
    goes_through(rt, pool, me, &mut held, behind());
    expect_equal(rt, copied(rt, alloc, pool, me), 2);
}

fn one_caller_cuts<B: PoolBrand, R: Wait + Abort>(
    rt: &R,
    alloc: Global,
    unopened: UnopenedPool,
    settings: Settings,
    items: Items,
)
    requires { (unopened ≡ B.table) × (settings ≡ B.settings) × (1 ≡ B.callers) }
{
    let clock = TestClock::Still;
    let (pool, mut callers) = open::<B, R>(rt, alloc, unopened, settings, NUMBER, 1, items, clock);
    let me = callers.last_mut().expect(rt, "a caller");
    borrows_behind_a_cut(rt, alloc, &pool, me);
    is_left(rt, &finished(rt, pool, callers));
}

// After the cut there are two entries, and a lent object.
fn is_left(rt: &impl Abort, core: &Core<Item>) {
    expect_equal(rt, core.journal().len(), 2);
    let counts = Counts {
        steps: 6,
        idle: 0,
        lent: 1,
        reserved: 0,
        created: 1,
        destroyed: 0,
        evicted: 0,
        reclaimed: 0,
    };
    expect_equal(rt, core.counts(), counts);
}

#[test]
fn a_cut_makes_room(rt: HostRuntime) {
    let unopened = unopened(&rt, rt.alloc());
    let settings = settings_of(&rt, rt.alloc(), "journalLimit = 7");
    let record = Record::new(&rt, rt.alloc(), 8);
    let items = Items {
        record: &record,
        failing: Failing::Never,
        waiting: Waiting::Nowhere,
    };
    one_caller_cuts::<Brand, _>(&rt, rt.alloc(), unopened, settings, items);
}

// Returns the answer of a core to the input of an entry.
fn answers(rt: &impl Abort, core: &mut Core<u64>, entry: &Entry) -> Answer {
    let value = if entry.input.carries() { Some(0) } else { None };
    let step = core.step(entry.caller, entry.at, entry.input, value);
    step.ok().expect(rt, "an answer").0
}

// Takes the steps of entries, and compares each answer.
fn answers_again(rt: &impl Abort, core: &mut Core<u64>, entries: &[Entry]) {
    for entry in entries {
        expect_equal(rt, answers(rt, core, entry), entry.answer);
    }
}

fn is_same(one: &Base, other: &Base) -> bool {
    one.head() == other.head() && one.records.as_slice() == other.records.as_slice()
}

// Opens a new core whose values are numbers.
fn another(rt: &impl Abort, alloc: Global, settings: Settings) -> Core<u64> {
    Core::open(alloc, settings).expect(rt, "a core")
}

// Cuts a core's journal.
fn cut_again(rt: &impl Abort, alloc: Global, core: &mut Core<u64>) -> Segment {
    core.cut(alloc).expect(rt, "a segment")
}

// Takes the steps of a segment, and cuts the core at the same position.
fn cuts_again(rt: &impl Abort, alloc: Global, core: &mut Core<u64>, segment: &Segment) {
    answers_again(rt, core, segment.entries.as_slice());
    let again = cut_again(rt, alloc, core);
    assert!(rt; is_same(&again.base, &segment.base));
}

// Takes the steps of all segments, with cuts at the same positions, and then those of the entries stored at the end.
fn takes_all(
    rt: &impl Abort,
    alloc: Global,
    core: &mut Core<u64>,
    segments: &[Segment],
    stored: &[Entry],
) {
    for segment in segments {
        cuts_again(rt, alloc, core, segment);
    }
    answers_again(rt, core, stored);
}

/// Returns the counts of a new core that takes the same steps.
pub fn plays_again(
    rt: &impl Abort,
    alloc: Global,
    settings: Settings,
    segments: &[Segment],
    stored: &[Entry],
) -> Counts {
    let mut core = another(rt, alloc, settings);
    takes_all(rt, alloc, &mut core, segments, stored);
    core.counts()
}

const TURNS: [Expectation; 1] = [(Action::TakeTurns(500), "done", 500)];

const CUTS: [Expectation; 1] = [(Action::Cut(200), "done", 200)];

// Two callers borrow and return, and the third cuts.
fn parts() -> Parts<'static> {
    [&TURNS, &TURNS, &CUTS]
}

// The pool has the answers and the counts of a core that takes the steps of its segments.
fn are_one_history(rt: &impl Abort, alloc: Global, core: &Core<Item>, segments: &[Segment]) {
    expect_equal(rt, segments.len(), 200);
    let settings = Settings::default();
    let counts = plays_again(rt, alloc, settings, segments, core.journal());
    expect_equal(rt, core.counts(), counts);
    expect_equal(rt, counts.steps, 4_000);
}

#[test]
fn segments_are_one_history(rt: HostRuntime) {
    let never = Failing::Never;
    let (core, segments) = tries(&rt, rt.alloc(), "", never, Gated::Nothing, parts());
    are_one_history(&rt, rt.alloc(), &core, &segments);
}
