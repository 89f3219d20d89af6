//! The expected answers, with a function for each row of the table of answers.
ghost use Rattle.std.specs.Prelude.{◌≡◌, ◌-◌};
ghost use Rattle.pool_core.specs.Reply.{is_evictable, exhausted_reply, borrow_reply, readying_reply, ready_reply, lent_reply, returning_reply, park_reply, adding_reply, added_reply, testing_reply, tested_reply, destroyed_reply, add_reply, evict_next_reply};

use crate::limits::{has_reached_limit, is_more_than, is_past_limit};
use pool_journal::{Answer, Cause, Outcome, Phase, Record};
use pool_settings::Settings;

const BAD_OUTCOME: Answer = Answer::Refused(Cause::BadOutcome);

const NOT_HELD: Answer = Answer::Refused(Cause::NotHeld);

const NOT_LENT: Answer = Answer::Refused(Cause::NotLent);

// The answer to a borrow that has waited `waited` milliseconds, if there is no object for it.
fn full_answer(settings: &Settings, waited: u64) -> Answer
    ensures { result ≡ exhausted_reply settings.now waited }
{
    if !settings.block_when_exhausted {
        Answer::Exhausted
    } else if has_reached_limit(settings.max_wait_millis, waited) {
        Answer::TimedOut
    } else {
        Answer::Wait
    }
}

/// Returns the answer to a borrow of an open pool that has waited `waited` milliseconds: `choice` is the object that it
/// would take, `room` whether a place is free, and `next` the next id.
pub fn borrow_answer(
    settings: &Settings,
    choice: Option<u64>,
    room: bool,
    next: u64,
    waited: u64,
) -> Answer
    ensures { result ≡ borrow_reply choice room next (exhausted_reply settings.now waited) }
{
    match choice {
        Some(id) => Answer::Take(id),
        None if room => Answer::Make(next),
        None => full_answer(settings, waited),
    }
}

// The answer for an object in phase Readying.
fn readying_answer(is_new: bool, outcome: Outcome) -> Answer
    ensures { result ≡ readying_reply is_new outcome }
{
    match outcome {
        Outcome::PassivateFailed => BAD_OUTCOME,
        Outcome::MakeFailed if is_new => Answer::Freed,
        Outcome::CreateTestFailed if is_new => Answer::Destroy,
        Outcome::MakeFailed | Outcome::CreateTestFailed => BAD_OUTCOME,
        Outcome::Good => Answer::Lent,
        Outcome::ActivateFailed | Outcome::TestFailed => Answer::Destroy,
    }
}

/// Returns the answer to the outcome of making an object ready.
pub fn ready_answer(phase: Phase, is_new: bool, outcome: Outcome) -> Answer
    ensures { result ≡ ready_reply phase is_new outcome }
{
    match phase {
        Phase::Readying => readying_answer(is_new, outcome),
        _ => NOT_HELD,
    }
}

/// Returns the answer to a return, an invalidation or a use: `answer` if the object is lent. With `abandoned`, an
/// object that isn't present may have been reclaimed.
pub fn lent_answer(abandoned: bool, phase: Phase, answer: Answer) -> Answer
    ensures { result ≡ lent_reply abandoned phase answer }
{
    match phase {
        Phase::Lent => answer,
        Phase::Absent | Phase::Gone if abandoned => Answer::Gone,
        _ => NOT_LENT,
    }
}

// The answer for an object that is being returned.
fn returning_answer(outcome: Outcome, room: bool) -> Answer
    ensures { result ≡ returning_reply outcome room }
{
    match outcome {
        Outcome::Good if room => Answer::Parked,
        Outcome::Good | Outcome::TestFailed | Outcome::PassivateFailed => Answer::Destroy,
        _ => BAD_OUTCOME,
    }
}

/// Returns the answer to the outcome of checking a returned object, with `room` in the queue.
pub fn park_answer(phase: Phase, outcome: Outcome, room: bool) -> Answer
    ensures { result ≡ park_reply phase outcome room }
{
    match phase {
        Phase::Returning => returning_answer(outcome, room),
        _ => NOT_HELD,
    }
}

/// Returns the answer if an object is to be made for the queue, with `room` for one more in the pool.
pub fn add_answer(room: bool, next: u64) -> Answer
    ensures { result ≡ add_reply room next }
{
    if room {
        Answer::Make(next)
    } else {
        Answer::NoPlace
    }
}

// The answer for an object that is being made for the queue.
fn adding_answer(outcome: Outcome, is_open: bool) -> Answer
    ensures { result ≡ adding_reply outcome is_open }
{
    match outcome {
        Outcome::ActivateFailed | Outcome::TestFailed => BAD_OUTCOME,
        Outcome::Good if is_open => Answer::Parked,
        Outcome::MakeFailed => Answer::Freed,
        Outcome::Good | Outcome::CreateTestFailed | Outcome::PassivateFailed => Answer::Destroy,
    }
}

/// Returns the answer to the outcome of making an object for the queue.
pub fn added_answer(phase: Phase, outcome: Outcome, is_open: bool) -> Answer
    ensures { result ≡ added_reply phase outcome is_open }
{
    match phase {
        Phase::Adding => adding_answer(outcome, is_open),
        _ => NOT_HELD,
    }
}

// Whether an idle object in a queue of length `queue` is evicted at time `at` (milliseconds).
fn is_evicted(settings: &Settings, queue: u64, at: u64, known: Record) -> bool
    ensures { result ≡ is_evictable settings.now queue at known }
{
    let idle = at.saturating_sub(known.since);
    is_past_limit(settings.min_evictable_idle_millis, idle)
        || is_past_limit(settings.soft_min_evictable_idle_millis, idle)
            && is_more_than(queue, settings.effective_min_idle())
}

/// Returns the answer to the next step of an eviction run at time `at` (milliseconds), for the idle object `examined`,
/// in a queue of length `queue`.
pub fn evict_next_answer(
    settings: &Settings,
    queue: u64,
    at: u64,
    examined: Option<Record>,
) -> Answer
    ensures { result ≡ evict_next_reply settings.now queue at examined }
{
    match examined {
        None => Answer::Nothing,
        Some(known) if is_evicted(settings, queue, at, known) => Answer::DestroyIdle(known.id),
        Some(known) if settings.test_while_idle => Answer::Test(known.id),
        Some(known) => Answer::KeptIdle(known.id),
    }
}

// The answer for an object under an idle test.
fn testing_answer(outcome: Outcome, is_open: bool) -> Answer
    ensures { result ≡ testing_reply outcome is_open }
{
    match outcome {
        Outcome::MakeFailed | Outcome::CreateTestFailed => BAD_OUTCOME,
        Outcome::Good if is_open => Answer::Kept,
        _ => Answer::Destroy,
    }
}

/// Returns the answer to the outcome of an idle test.
pub fn tested_answer(phase: Phase, outcome: Outcome, is_open: bool) -> Answer
    ensures { result ≡ tested_reply phase outcome is_open }
{
    match phase {
        Phase::Testing => testing_answer(outcome, is_open),
        _ => NOT_HELD,
    }
}

/// Returns the answer to the report that an object was destroyed.
pub fn destroyed_answer(phase: Phase) -> Answer
    ensures { result ≡ destroyed_reply phase }
{
    match phase {
        Phase::Destroying => Answer::Freed,
        _ => NOT_HELD,
    }
}
