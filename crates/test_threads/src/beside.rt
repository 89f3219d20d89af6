//! Three callers in parallel, each in its own thread, or fewer if some do nothing.
ghost use Rattle.std.specs.Prelude.{◌≡◌};

use crate::actions::{Action, Expectation, Reply, borrows, counts, cut, does, expects, gives_back};
use crate::clocks::TestClock;
use crate::items::{Failing, Item, Items, Record, Waiting};
use crate::openings::{NUMBER, Pool, finished, open, settings_of, three, unopened};
use crate::turns::{Flag, Flags, TURNS};
use pool_core::Core;
use pool_journal::Segment;
use pool_settings::Settings;
use pool_shared::{Caller, Lent, PoolBrand, UnopenedPool};
use pool_stats::Counts;
use std::alloc::Global;
use std::marker::Brand;
use std::process::Abort;
use std::sync::Wait;
use std::thread;
use std::thread::Threads;

// Waits until the journal has `steps` entries. Returns whether it had them within the turns.
fn turns_until_steps<B: PoolBrand, R: Wait>(
    rt: &R,
    pool: &Pool<B>,
    me: &mut Caller<B>,
    steps: u64,
) -> bool {
    for _ in 0..TURNS {
        if counts(rt, pool, me).steps >= steps {
            return true;
        }
        thread::yield_now();
    }
    false
}

// Waits until an object is lent. Returns whether one was within the turns.
fn turns_until_lent<B: PoolBrand, R: Wait>(rt: &R, pool: &Pool<B>, me: &mut Caller<B>) -> bool {
    for _ in 0..TURNS {
        if counts(rt, pool, me).lent == 1 {
            return true;
        }
        thread::yield_now();
    }
    false
}

fn of_wait(has_come: bool) -> Reply {
    if has_come {
        ("done", 0)
    } else {
        ("the turns ran out", 0)
    }
}

// Borrows and returns. The number is how often an object was lent and returned.
fn takes_turns<B: PoolBrand, R: Wait>(
    rt: &R,
    pool: &Pool<B>,
    me: &mut Caller<B>,
    rounds: u32,
) -> Reply {
    let mut held = None;
    let mut number = 0u64;
    for _ in 0..rounds {
        borrows(rt, pool, me, &mut held);
        if held.is_some() {
            gives_back(rt, pool, me, &mut held);
            number = number.saturating_add(u64::from(held.is_none()));
        }
    }
    ("done", number)
}

// Borrows, and sets the flag of the result: `Lent` or `TimedOut`.
fn borrows_or_times_out<B: PoolBrand, R: Wait>(
    rt: &R,
    pool: &Pool<B>,
    flags: &Flags,
    me: &mut Caller<B>,
    held: &mut Option<Lent<Item>>,
) -> Reply {
    let (word, number) = borrows(rt, pool, me, held);
    if word == "lent" {
        flags.set(Flag::Lent);
        ("done", 0)
    } else if word == "timed out" {
        flags.set(Flag::TimedOut);
        ("done", 0)
    } else {
        (word, number)
    }
}

// Whether the counts account for all created objects.
fn adds_up(counts: &Counts) -> bool {
    let kept = u128::from(counts.idle) + u128::from(counts.lent) + u128::from(counts.reserved);
    let lost = u128::from(counts.destroyed) + u128::from(counts.reclaimed);
    u128::from(counts.created) == kept + lost
}

// Reads the counts. The number is how often they added up and the steps had not decreased.
fn watches<B: PoolBrand, R: Wait>(rt: &R, pool: &Pool<B>, me: &mut Caller<B>, looks: u32) -> Reply {
    let mut before = 0;
    let mut number = 0u64;
    for _ in 0..looks {
        let counts = counts(rt, pool, me);
        if adds_up(&counts) && before <= counts.steps {
            number = number.saturating_add(1);
        }
        before = counts.steps;
    }
    ("done", number)
}

// Cuts the journal. The number is that of the stored segments.
fn cuts<B: PoolBrand, R: Wait>(
    rt: &R,
    alloc: Global,
    pool: &Pool<B>,
    me: &mut Caller<B>,
    segments: &mut Vec<Segment>,
    times: u32,
) -> Reply {
    let mut number = 0u64;
    for _ in 0..times {
        if let Some(segment) = cut(rt, alloc, pool, me) {
            if segments.push(segment).is_ok() {
                number = number.saturating_add(1);
            }
        }
        thread::yield_now();
    }
    ("done", number)
}

// Does an action that involves other callers, or one of a caller alone.
fn does_beside<B: PoolBrand, R: Wait>(
    rt: &R,
    pool: &Pool<B>,
    flags: &Flags,
    me: &mut Caller<B>,
    held: &mut Option<Lent<Item>>,
    action: Action,
) -> Reply {
    match action {
        Action::StepsAtLeast(steps) => of_wait(counts(rt, pool, me).steps >= steps),
        Action::UntilSteps(steps) => of_wait(turns_until_steps(rt, pool, me, steps)),
        Action::UntilLent => of_wait(turns_until_lent(rt, pool, me)),
        Action::UntilSet(flag) => of_wait(flags.turn_until_set(flag)),
        Action::Set(flag) => {
            flags.set(flag);
            ("done", 0)
        }
        Action::SetTime(time) => {
            flags.set_time(time);
            ("done", 0)
        }
        Action::BorrowOrTimeOut => borrows_or_times_out(rt, pool, flags, me, held),
        Action::TakeTurns(rounds) => takes_turns(rt, pool, me, rounds),
        Action::Watch(looks) => watches(rt, pool, me, looks),
        _ => does(rt, pool, me, held, action),
    }
}

// Does an action of any kind.
fn does_any<B: PoolBrand, R: Wait>(
    rt: &R,
    alloc: Global,
    pool: &Pool<B>,
    flags: &Flags,
    me: &mut Caller<B>,
    held: &mut Option<Lent<Item>>,
    segments: &mut Vec<Segment>,
    action: Action,
) -> Reply {
    match action {
        Action::Cut(times) => cuts(rt, alloc, pool, me, segments, times),
        _ => does_beside(rt, pool, flags, me, held, action),
    }
}

// Does the actions of rows, and compares each result. Returns the caller and the segments that it cut.
fn takes_part<B: PoolBrand, R: Wait + Abort>(
    rt: &R,
    alloc: Global,
    pool: &Pool<B>,
    flags: &Flags,
    me: Caller<B>,
    rows: &[Expectation],
) -> (Caller<B>, Vec<Segment>) {
    let mut caller = me;
    let mut held = None;
    let mut segments = Vec::new(alloc);
    for (action, word, number) in rows {
        let reported = does_any(
            rt,
            alloc,
            pool,
            flags,
            &mut caller,
            &mut held,
            &mut segments,
            *action,
        );
        expects(rt, reported, (word, *number));
    }
    (caller, segments)
}

/// The core at the end of a test, and the segments that the third caller cut.
pub type Left = (Core<Item>, Vec<Segment>);

/// The rows of the callers of a test.
pub type Parts<'a> = [&'a [Expectation]; 3];

// The callers 0, 1 and 2 again.
fn together<B: PoolBrand>(
    rt: &impl Abort,
    alloc: Global,
    zero: Caller<B>,
    one: Caller<B>,
    two: Caller<B>,
) -> Vec<Caller<B>> {
    let mut callers = Vec::new(alloc);
    callers.push(zero).expect(rt, "the first caller");
    callers.push(one).expect(rt, "the second caller");
    callers.push(two).expect(rt, "the third caller");
    callers
}

// Runs the rows of callers 1 and 2, each in its own thread. Returns both callers, and the segments that caller 2 cut.
fn both<B: PoolBrand + Send + Sync, R: Threads + Wait + Abort + Sync>(
    rt: &R,
    alloc: Global,
    pool: &Pool<B>,
    flags: &Flags,
    one: Caller<B>,
    two: Caller<B>,
    second: &[Expectation],
    third: &[Expectation],
) -> (Caller<B>, Caller<B>, Vec<Segment>) {
    let (one, two) = thread::join(
        rt,
        move || takes_part::<B, R>(rt, alloc, pool, flags, one, second),
        move || takes_part::<B, R>(rt, alloc, pool, flags, two, third),
    );
    let (one, _) = one;
    let (two, segments) = two;
    (one, two, segments)
}

// Runs the rows of each caller in its own thread.
fn all_three<B: PoolBrand + Send + Sync, R: Threads + Wait + Abort + Sync>(
    rt: &R,
    alloc: Global,
    pool: &Pool<B>,
    flags: &Flags,
    callers: (Caller<B>, Caller<B>, Caller<B>),
    parts: Parts,
) -> (Vec<Caller<B>>, Vec<Segment>) {
    let (zero, one, two) = callers;
    let [first, second, third] = parts;
    let (zero, others) = thread::join(
        rt,
        move || takes_part::<B, R>(rt, alloc, pool, flags, zero, first),
        move || both::<B, R>(rt, alloc, pool, flags, one, two, second, third),
    );
    let (zero, _) = zero;
    let (one, two, segments) = others;
    (together(rt, alloc, zero, one, two), segments)
}

fn lives<B: PoolBrand + Send + Sync, R: Threads + Wait + Abort + Sync>(
    rt: &R,
    alloc: Global,
    unopened: UnopenedPool,
    settings: Settings,
    items: Items,
    clock: TestClock,
    flags: &Flags,
    parts: Parts,
) -> Left
    requires { (unopened ≡ B.table) × (settings ≡ B.settings) × (3 ≡ B.callers) }
{
    let (pool, callers) = open::<B, R>(rt, alloc, unopened, settings, NUMBER, 3, items, clock);
    let callers = three(rt, callers);
    let (callers, segments) = all_three(rt, alloc, &pool, flags, callers, parts);
    (finished(rt, pool, callers), segments)
}

/// The part of a test that waits at its gate.
#[derive(Clone, Copy)]
pub enum Gated {
    Nothing,
    /// The factory, while it makes object 0.
    Making,
    /// The factory, while it tests an object.
    Testing,
    /// The clock.
    Telling,
}

fn waiting(gated: Gated, flags: &Flags) -> Waiting<'_> {
    match gated {
        Gated::Making => Waiting::Making(flags),
        Gated::Testing => Waiting::Testing(flags),
        Gated::Nothing | Gated::Telling => Waiting::Nowhere,
    }
}

fn clock(gated: Gated, flags: &Flags) -> TestClock<'_> {
    match gated {
        Gated::Telling => TestClock::Held(flags),
        Gated::Nothing | Gated::Making | Gated::Testing => TestClock::Set(flags),
    }
}

/// Runs the rows of three callers of a new pool, with this factory and the settings of a text. Nothing waits at the
/// gate until the turns run out. Returns the core at the end, and the segments that the third caller cut.
pub fn tries<R: Threads + Wait + Abort + Sync>(
    rt: &R,
    alloc: Global,
    settings: &str,
    failing: Failing,
    gated: Gated,
    parts: Parts,
) -> Left {
    let unopened = unopened(rt, alloc);
    let settings = settings_of(rt, alloc, settings);
    let record = Record::new(rt, alloc, 8);
    let flags = Flags::new();
    let items = Items {
        record: &record,
        failing,
        waiting: waiting(gated, &flags),
    };
    let clock = clock(gated, &flags);
    let left = lives::<Brand, R>(rt, alloc, unopened, settings, items, clock, &flags, parts);
    assert!(rt; !flags.have_run_out(), "the turns ran out at the gate");
    left
}
