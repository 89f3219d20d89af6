//! The actions of a caller in a test, and their results, as a word and a number.

use crate::items::Item;
use crate::openings::Pool;
use crate::turns::Flag;
use pool_journal::Segment;
use pool_shared::{
    AddFault, Addition, BorrowFault, Caller, Lent, PoolBrand, PoolFault, ReturnFault, Returned,
    Touched,
};
use pool_stats::Counts;
use std::alloc::Global;
use std::fmt::Debug;
use std::process::Abort;
use std::sync::Wait;

/// A call of a pool, a query of one of its counts, or an action in parallel with others. A borrowed object is held
/// until it is returned.
#[derive(Clone, Copy)]
pub enum Action {
    Borrow,
    Touch,
    GiveBack,
    Invalidate,
    Add,
    Fill,
    Evict,
    Reclaim,
    Maintain,
    Clear,
    Close,
    Steps,
    Idle,
    Lent,
    Reserved,
    Created,
    Destroyed,
    Evicted,
    Reclaimed,
    /// A query of the object that is held.
    Held,
    /// Tests whether the journal has this number of entries or more.
    StepsAtLeast(u64),
    /// Waits until it has.
    UntilSteps(u64),
    /// Waits until an object is lent.
    UntilLent,
    Set(Flag),
    UntilSet(Flag),
    /// Sets the time that the clock returns (milliseconds).
    SetTime(u64),
    /// Borrows, and sets the flag of the result: `Lent` or `TimedOut`.
    BorrowOrTimeOut,
    /// Borrows and returns this number of times.
    TakeTurns(u32),
    /// Tests this number of times whether the counts add up.
    Watch(u32),
    /// Cuts the journal this number of times.
    Cut(u32),
    /// Cuts the journal if less room than this is left.
    CutBelow(u64),
}

/// A word for the result of a call, and its number: an object's id, a number of objects, or the factory's error; 0 if
/// there is none.
pub type Reply = (&'static str, u64);

/// An action, with the word and the number of its expected result.
pub type Expectation = (Action, &'static str, u64);

fn of_borrow_fault(fault: BorrowFault<u8>) -> Reply {
    match fault {
        BorrowFault::Closed => ("closed", 0),
        BorrowFault::Exhausted => ("exhausted", 0),
        BorrowFault::TimedOut => ("timed out", 0),
        BorrowFault::MakeFailed(fault) => ("not made", u64::from(fault)),
        BorrowFault::CreateTestFailed => ("new one failed its test", 0),
        BorrowFault::ActivateFailed(fault) => ("not activated", u64::from(fault)),
        BorrowFault::BorrowTestFailed => ("failed its test", 0),
        BorrowFault::JournalFull => ("full", 0),
        BorrowFault::OutOfMemory => ("out of memory", 0),
    }
}

fn of_return_fault(fault: ReturnFault) -> Reply {
    match fault {
        ReturnFault::ForeignObject => ("foreign", 0),
        ReturnFault::NotLent => ("not lent", 0),
        ReturnFault::JournalFull => ("full", 0),
        ReturnFault::OutOfMemory => ("out of memory", 0),
    }
}

fn of_add_fault(fault: AddFault<u8>) -> Reply {
    match fault {
        AddFault::Closed => ("closed", 0),
        AddFault::MakeFailed(fault) => ("not made", u64::from(fault)),
        AddFault::CreateTestFailed => ("new one failed its test", 0),
        AddFault::PassivateFailed(fault) => ("not passivated", u64::from(fault)),
        AddFault::JournalFull => ("full", 0),
        AddFault::OutOfMemory => ("out of memory", 0),
    }
}

fn of_count(done: Result<u64, PoolFault>) -> Reply {
    match done {
        Ok(number) => ("count", number),
        Err(PoolFault::Closed) => ("closed", 0),
        Err(PoolFault::JournalFull) => ("full", 0),
        Err(PoolFault::OutOfMemory) => ("out of memory", 0),
    }
}

fn of_returned(returned: Returned) -> Reply {
    match returned {
        Returned::Parked => ("parked", 0),
        Returned::Destroyed => ("destroyed", 0),
        Returned::Gone => ("gone", 0),
    }
}

/// Borrows an object to hold. An object that was held before is dropped.
pub fn borrows<B: PoolBrand, R: Wait>(
    rt: &R,
    pool: &Pool<B>,
    me: &mut Caller<B>,
    held: &mut Option<Lent<Item>>,
) -> Reply {
    match pool.borrow(rt, me) {
        Ok(lent) => {
            let id = lent.id();
            *held = Some(lent);
            ("lent", id)
        }
        Err(fault) => of_borrow_fault(fault),
    }
}

fn touches<B: PoolBrand, R: Wait>(
    rt: &R,
    pool: &Pool<B>,
    me: &mut Caller<B>,
    held: &Option<Lent<Item>>,
) -> Reply {
    let Some(lent) = held else {
        return ("nothing held", 0);
    };
    match pool.touch(rt, me, lent) {
        Ok(Touched::Noted) => ("noted", 0),
        Ok(Touched::Gone) => ("gone", 0),
        Err(fault) => of_return_fault(fault),
    }
}

/// Returns the held object. If that fails, it is still held.
pub fn gives_back<B: PoolBrand, R: Wait>(
    rt: &R,
    pool: &Pool<B>,
    me: &mut Caller<B>,
    held: &mut Option<Lent<Item>>,
) -> Reply {
    let Some(lent) = held.take() else {
        return ("nothing held", 0);
    };
    match pool.give_back(rt, me, lent) {
        Ok(returned) => of_returned(returned),
        Err((fault, lent)) => {
            *held = Some(lent);
            of_return_fault(fault)
        }
    }
}

/// Invalidates the held object. If that fails, it is still held.
pub fn invalidates<B: PoolBrand, R: Wait>(
    rt: &R,
    pool: &Pool<B>,
    me: &mut Caller<B>,
    held: &mut Option<Lent<Item>>,
) -> Reply {
    let Some(lent) = held.take() else {
        return ("nothing held", 0);
    };
    match pool.invalidate(rt, me, lent) {
        Ok(returned) => of_returned(returned),
        Err((fault, lent)) => {
            *held = Some(lent);
            of_return_fault(fault)
        }
    }
}

fn adds<B: PoolBrand, R: Wait>(rt: &R, pool: &Pool<B>, me: &mut Caller<B>) -> Reply {
    match pool.add(rt, me) {
        Ok(Addition::Idle) => ("idle", 0),
        Ok(Addition::NoPlace) => ("no place", 0),
        Ok(Addition::Destroyed) => ("destroyed", 0),
        Err(fault) => of_add_fault(fault),
    }
}

fn fills<B: PoolBrand, R: Wait>(rt: &R, pool: &Pool<B>, me: &mut Caller<B>) -> Reply {
    match pool.fill(rt, me) {
        Ok(parked) => ("count", parked),
        Err(fault) => of_add_fault(fault),
    }
}

// The number of a run is that of the objects that it examined; if it destroyed some, that of the destroyed ones.
fn evicts<B: PoolBrand, R: Wait>(rt: &R, pool: &Pool<B>, me: &mut Caller<B>) -> Reply {
    match pool.evict(rt, me) {
        Ok(run) => {
            if run.destroyed == 0 {
                ("examined", run.examined)
            } else if run.destroyed == run.examined {
                ("all destroyed", run.destroyed)
            } else {
                ("some destroyed", run.destroyed)
            }
        }
        Err(fault) => of_count(Err(fault)),
    }
}

fn maintains<B: PoolBrand, R: Wait>(rt: &R, pool: &Pool<B>, me: &mut Caller<B>) -> Reply {
    match pool.maintain(rt, me) {
        Ok(()) => ("done", 0),
        Err(fault) => of_add_fault(fault),
    }
}

fn reclaims<B: PoolBrand, R: Wait>(rt: &R, pool: &Pool<B>, me: &mut Caller<B>) -> Reply {
    of_count(pool.reclaim(rt, me))
}

fn clears<B: PoolBrand, R: Wait>(rt: &R, pool: &Pool<B>, me: &mut Caller<B>) -> Reply {
    of_count(pool.clear(rt, me))
}

fn closes<B: PoolBrand, R: Wait>(rt: &R, pool: &Pool<B>, me: &mut Caller<B>) -> Reply {
    of_count(pool.close(rt, me))
}

/// Cuts the journal. Returns `None` if an allocation fails.
pub fn cut<B: PoolBrand, R: Wait>(
    rt: &R,
    alloc: Global,
    pool: &Pool<B>,
    me: &mut Caller<B>,
) -> Option<Segment> {
    pool.cut(rt, alloc, me).ok()
}

/// Cuts the journal if less room than this is left, and stores the segment. The number of the result is that of its
/// entries.
pub fn cuts_below<B: PoolBrand, R: Wait + Abort>(
    rt: &R,
    alloc: Global,
    pool: &Pool<B>,
    me: &mut Caller<B>,
    segments: &mut Vec<Segment>,
    least: u64,
) -> Reply {
    let Some(segment) = pool.cut_below(rt, alloc, me, least).expect(rt, "memory") else {
        return ("room", 0);
    };
    let number = segment.entries.as_slice().len() as u64;
    segments.push(segment).expect(rt, "memory");
    ("cut", number)
}

/// Returns the number of entries of a copy of the journal.
pub fn copied<B: PoolBrand, R: Wait + Abort>(
    rt: &R,
    alloc: Global,
    pool: &Pool<B>,
    me: &mut Caller<B>,
) -> usize {
    pool.journal_copy(rt, alloc, me).expect(rt, "a copy").len()
}

/// Returns the counts that the caller observes.
pub fn counts<B: PoolBrand, R: Wait>(rt: &R, pool: &Pool<B>, me: &mut Caller<B>) -> Counts {
    pool.counts(rt, me)
}

// Whether the held object is active, and its id.
fn of_held(held: &Option<Lent<Item>>) -> Reply {
    match held {
        None => ("nothing held", 0),
        Some(lent) => {
            if lent.value().awake {
                ("awake", lent.id())
            } else {
                ("asleep", lent.id())
            }
        }
    }
}

// The count that an action queries.
fn of_counts(action: Action, counts: Counts) -> Reply {
    match action {
        Action::Steps => ("steps", counts.steps),
        Action::Idle => ("idle", counts.idle),
        Action::Lent => ("lent", counts.lent),
        Action::Reserved => ("reserved", counts.reserved),
        Action::Created => ("created", counts.created),
        Action::Destroyed => ("destroyed", counts.destroyed),
        Action::Evicted => ("evicted", counts.evicted),
        Action::Reclaimed => ("reclaimed", counts.reclaimed),
        _ => ("no count", 0),
    }
}

/// Does an action, and returns its result.
pub fn does<B: PoolBrand, R: Wait>(
    rt: &R,
    pool: &Pool<B>,
    me: &mut Caller<B>,
    held: &mut Option<Lent<Item>>,
    action: Action,
) -> Reply {
    match action {
        Action::Borrow => borrows(rt, pool, me, held),
        Action::Touch => touches(rt, pool, me, held),
        Action::GiveBack => gives_back(rt, pool, me, held),
        Action::Invalidate => invalidates(rt, pool, me, held),
        Action::Add => adds(rt, pool, me),
        Action::Fill => fills(rt, pool, me),
        Action::Evict => evicts(rt, pool, me),
        Action::Reclaim => reclaims(rt, pool, me),
        Action::Maintain => maintains(rt, pool, me),
        Action::Clear => clears(rt, pool, me),
        Action::Close => closes(rt, pool, me),
        Action::Held => of_held(held),
        _ => of_counts(action, counts(rt, pool, me)),
    }
}

/// Compares the result of an action with the expected one.
pub fn expects(rt: &impl Abort, reported: Reply, wanted: Reply) {
    let (word, number) = reported;
    assert!(rt;
        word == wanted.0 && number == wanted.1,
        "it came to {word} {number}"
    );
}

/// Compares a value with the expected one.
pub fn expect_equal<T: Copy + PartialEq + Debug>(rt: &impl Abort, found: T, wanted: T) {
    assert_eq!(rt; found, wanted);
}

/// Does the actions of rows in turn, and compares each result.
pub fn goes_through<B: PoolBrand, R: Wait + Abort>(
    rt: &R,
    pool: &Pool<B>,
    me: &mut Caller<B>,
    held: &mut Option<Lent<Item>>,
    rows: &[Expectation],
) {
    for (action, word, number) in rows {
        let reported = does(rt, pool, me, held, *action);
        expects(rt, reported, (word, *number));
    }
}
