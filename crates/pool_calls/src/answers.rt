//! What follows the answers of the pool to a call that holds no object, for each kind.
ghost use Rattle.std.specs.Prelude.{◌≡◌};
ghost use Rattle.pool_calls.specs.Table as table;
ghost use Rattle.pool_calls.specs.Left.{CountFits};

use crate::action::End;
use crate::kind::Kind;
use crate::stage::{Object, Request, Stage};
use pool_journal::{Answer, Cause, Outcome};

// The stage of a call that got an answer which the pool gives to no such call.
pub(crate) fn contradicted(answer: Answer) -> Stage
    ensures { result ≡ table.contradicted answer }
{
    Stage::Ends(End::Contradicted(answer))
}

// The stage of a call whose factory does its tasks on an object.
#[inline(always)]
pub(crate) fn works(id: u64, is_new: bool, left: u64) -> Stage
    ensures { result ≡ table.works id is_new left }
{
    Stage::Works(Object { id, is_new, left })
}

// The stage of a call that removes an object which was no call's.
fn removes(id: u64, left: u64) -> Stage
    ensures { result ≡ table.removes id left }
{
    let is_new = false;
    Stage::Removes(Object { id, is_new, left }, Outcome::Good)
}

// The stage of a call that went through all the objects which the pool counted.
fn through(kind: Kind) -> Stage
    ensures { result ≡ table.through kind }
{
    if kind.is_borrow() {
        Stage::Asks(Request::Ask)
    } else {
        Stage::Ends(End::Complete)
    }
}

// The stage of a call that goes through up to this many more objects.
pub(crate) fn go_through(kind: Kind, left: u64) -> Stage
    ensures { result ≡ table.go_through kind left }
{
    match left.checked_sub(1) {
        Some(rest) => Stage::Asks(Request::Next(rest)),
        None => through(kind),
    }
}

fn after_borrowing(answer: Answer) -> Stage
    ensures { result ≡ table.after_borrowing answer }
{
    match answer {
        Answer::Take(id) => works(id, false, 0),
        Answer::Make(id) => works(id, true, 0),
        Answer::Wait => Stage::Asks(Request::Ask),
        Answer::Exhausted => Stage::Ends(End::Exhausted),
        Answer::TimedOut => Stage::Ends(End::TimedOut),
        Answer::Refused(Cause::Closed) => Stage::Ends(End::Closed),
        other => contradicted(other),
    }
}

fn after_returning(id: u64, answer: Answer) -> Stage
    ensures { result ≡ table.after_returning id answer }
{
    match answer {
        Answer::Check => works(id, false, 0),
        Answer::Gone => Stage::Gone(id),
        Answer::Refused(Cause::NotLent) => Stage::Ends(End::NotLent),
        other => contradicted(other),
    }
}

fn after_invalidating(id: u64, answer: Answer) -> Stage
    ensures { result ≡ table.after_invalidating id answer }
{
    match answer {
        Answer::Destroy => removes(id, 0),
        Answer::Gone => Stage::Gone(id),
        Answer::Refused(Cause::NotLent) => Stage::Ends(End::NotLent),
        other => contradicted(other),
    }
}

fn after_detaching(id: u64, answer: Answer) -> Stage
    ensures { result ≡ table.after_detaching id answer }
{
    match answer {
        Answer::Destroy => removes(id, 0),
        Answer::Gone => Stage::Ends(End::Gone),
        Answer::Refused(Cause::NotLent) => Stage::Ends(End::NotLent),
        other => contradicted(other),
    }
}

fn after_touching(answer: Answer) -> Stage
    ensures { result ≡ table.after_touching answer }
{
    match answer {
        Answer::Noted => Stage::Ends(End::Noted),
        Answer::Gone => Stage::Ends(End::Gone),
        Answer::Refused(Cause::NotLent) => Stage::Ends(End::NotLent),
        other => contradicted(other),
    }
}

fn after_adding(answer: Answer) -> Stage
    ensures { result ≡ table.after_adding answer }
{
    match answer {
        Answer::Make(id) => works(id, true, 0),
        Answer::NoPlace => Stage::Ends(End::NoPlace),
        Answer::Refused(Cause::Closed) => Stage::Ends(End::Closed),
        other => contradicted(other),
    }
}

fn after_filling(answer: Answer) -> Stage
    ensures { result ≡ table.after_filling answer }
{
    match answer {
        Answer::Make(id) => works(id, true, 0),
        Answer::Enough | Answer::NoPlace => Stage::Ends(End::Complete),
        other => contradicted(other),
    }
}

fn after_evicting(answer: Answer) -> Stage
    ensures { result ≡ table.after_evicting answer }
{
    match answer {
        Answer::Count(count) => go_through(Kind::Evict, count),
        Answer::Refused(Cause::Closed) => Stage::Ends(End::Closed),
        other => contradicted(other),
    }
}

fn after_reclaiming(kind: Kind, answer: Answer) -> Stage
    ensures { result ≡ table.after_reclaiming kind answer }
{
    match answer {
        Answer::Count(count) => go_through(kind, count),
        other => contradicted(other),
    }
}

fn after_clearing(answer: Answer) -> Stage
    ensures { result ≡ table.after_clearing answer }
{
    match answer {
        Answer::Count(count) => go_through(Kind::Clear, count),
        Answer::Nothing => Stage::Ends(End::Complete),
        other => contradicted(other),
    }
}

// The stage after the answer to the step by which a call asks.
fn after_asking(kind: Kind, answer: Answer) -> Stage
    ensures { result ≡ table.after_asking kind answer }
{
    match kind {
        Kind::Borrow(_) => after_borrowing(answer),
        Kind::Return(id) => after_returning(id, answer),
        Kind::Invalidate(id) => after_invalidating(id, answer),
        Kind::Detach(id) => after_detaching(id, answer),
        Kind::Touch(_) => after_touching(answer),
        Kind::Add => after_adding(answer),
        Kind::Fill => after_filling(answer),
        Kind::Evict => after_evicting(answer),
        Kind::Reclaim => after_reclaiming(kind, answer),
        Kind::Clear | Kind::Close => after_clearing(answer),
    }
}

fn after_examining(left: u64, answer: Answer) -> Stage
    ensures { result ≡ table.after_examining left answer }
{
    match answer {
        Answer::KeptIdle(_) => go_through(Kind::Evict, left),
        Answer::Test(id) => works(id, false, left),
        Answer::DestroyIdle(id) => removes(id, left),
        Answer::Nothing => Stage::Ends(End::Complete),
        other => contradicted(other),
    }
}

fn after_taking(left: u64, answer: Answer) -> Stage
    ensures { result ≡ table.after_taking left answer }
{
    match answer {
        Answer::DestroyIdle(id) => removes(id, left),
        Answer::Nothing => Stage::Ends(End::Complete),
        other => contradicted(other),
    }
}

fn after_removing(kind: Kind, left: u64, answer: Answer) -> Stage
    ensures { result ≡ table.after_removing kind left answer }
{
    match answer {
        Answer::Reclaimed(_) => go_through(kind, left),
        Answer::Nothing => through(kind),
        other => contradicted(other),
    }
}

// The stage after the answer to the step for the next object, which up to `left` more may follow.
fn after_next(kind: Kind, left: u64, answer: Answer) -> Stage
    ensures { result ≡ table.after_next kind left answer }
{
    match kind {
        Kind::Borrow(_) | Kind::Reclaim => after_removing(kind, left, answer),
        Kind::Evict => after_examining(left, answer),
        _ => after_taking(left, answer),
    }
}

/// Returns the stage after the answer to a step that a call asked for while it held no object.
pub(crate) fn after_request(kind: Kind, request: Request, answer: Answer) -> Stage
    ensures { result ≡ table.after_request kind request answer }
{
    match request {
        Request::Begin => after_reclaiming(kind, answer),
        Request::Ask => after_asking(kind, answer),
        Request::Next(left) => after_next(kind, left, answer),
    }
}

/// Returns the count of an answer, which has 64 bits; 0 if it has none.
pub(crate) fn count_of(answer: Answer) -> u64
    ensures { CountFits answer }
{
    match answer {
        Answer::Count(count) => count,
        _ => 0,
    }
}
