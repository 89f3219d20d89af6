//! What follows the answers of the pool to the steps for an object, for each kind of call.
ghost use Rattle.std.specs.Prelude.{◌≡◌, ◌≤◌};
ghost use Rattle.pool_calls.specs.Table as table;
ghost use Rattle.pool_calls.specs.Left.{stage_left};

use crate::action::End;
use crate::answers::{contradicted, go_through};
use crate::kind::Kind;
use crate::stage::{Object, Request, Stage};
use pool_journal::{Answer, Outcome};

// The end of a call whose object is gone after work with this outcome.
fn end_by(outcome: Outcome) -> End
    ensures { result ≡ table.end_by outcome }
{
    match outcome {
        Outcome::Good => End::Destroyed,
        Outcome::MakeFailed => End::MakeFailed,
        Outcome::CreateTestFailed => End::CreateTestFailed,
        Outcome::ActivateFailed => End::ActivateFailed,
        Outcome::TestFailed => End::BorrowTestFailed,
        Outcome::PassivateFailed => End::PassivateFailed,
    }
}

// The stage of a call whose object is gone: its place is free.
fn after_object(kind: Kind, object: Object, outcome: Outcome) -> Stage
    ensures stage { result ≡ table.after_object kind object outcome }
    ensures left { stage_left result ≡ 0 }
{
    match kind {
        Kind::Borrow(_) => {
            if object.is_new {
                Stage::Ends(end_by(outcome))
            } else {
                Stage::Asks(Request::Ask)
            }
        }
        Kind::Add => Stage::Ends(end_by(outcome)),
        Kind::Fill => match outcome {
            Outcome::Good => Stage::Asks(Request::Ask),
            failure => Stage::Ends(end_by(failure)),
        },
        Kind::Evict | Kind::Clear | Kind::Close => go_through(kind, object.left),
        _ => Stage::Ends(End::Destroyed),
    }
}

/// Returns the stage after the answer to the step that frees the place of an object.
pub(crate) fn after_freeing(kind: Kind, object: Object, outcome: Outcome, answer: Answer) -> Stage
    ensures stage { result ≡ table.after_freeing kind object outcome answer }
    ensures left { stage_left result ≡ 0 }
{
    match answer {
        Answer::Freed => after_object(kind, object, outcome),
        other => contradicted(other),
    }
}

fn after_parking(kind: Kind, object: Object, answer: Answer) -> Stage
    ensures stage { result ≡ table.after_parking kind object answer }
    ensures left { stage_left result ≤ 2 }
{
    match answer {
        Answer::Parked => {
            if matches!(kind, Kind::Fill) {
                Stage::Asks(Request::Ask)
            } else {
                Stage::Ends(End::Parked)
            }
        }
        Answer::Destroy => Stage::Removes(object, Outcome::Good),
        other => contradicted(other),
    }
}

fn after_test(object: Object, answer: Answer) -> Stage
    ensures stage { result ≡ table.after_test object answer }
    ensures left { stage_left result ≤ 2 }
{
    match answer {
        Answer::Kept => go_through(Kind::Evict, object.left),
        Answer::Destroy => Stage::Removes(object, Outcome::Good),
        other => contradicted(other),
    }
}

fn after_lending(id: u64, answer: Answer) -> Stage
    ensures stage { result ≡ table.after_lending id answer }
    ensures left { stage_left result ≤ 2 }
{
    match answer {
        Answer::Lent => Stage::Ends(End::Lent(id)),
        other => contradicted(other),
    }
}

// The stage after the answer to the report of a good object.
fn after_good(kind: Kind, object: Object, answer: Answer) -> Stage
    ensures stage { result ≡ table.after_good kind object answer }
    ensures left { stage_left result ≤ 2 }
{
    match kind {
        Kind::Borrow(_) => after_lending(object.id, answer),
        Kind::Return(_) | Kind::Add | Kind::Fill => after_parking(kind, object, answer),
        _ => after_test(object, answer),
    }
}

// The stage after the answer to the report of an object that was made, and failed a task.
fn after_failure(object: Object, outcome: Outcome, answer: Answer) -> Stage
    ensures stage { result ≡ table.after_failure object outcome answer }
    ensures left { stage_left result ≤ 2 }
{
    match answer {
        Answer::Destroy => Stage::Removes(object, outcome),
        other => contradicted(other),
    }
}

/// Returns the stage after the answer to the report of an object.
pub(crate) fn after_report(kind: Kind, object: Object, outcome: Outcome, answer: Answer) -> Stage
    ensures stage { result ≡ table.after_report kind object outcome answer }
    ensures left { stage_left result ≤ 2 }
{
    match outcome {
        Outcome::Good => after_good(kind, object, answer),
        Outcome::MakeFailed => after_freeing(kind, object, outcome, answer),
        failure => after_failure(object, failure, answer),
    }
}
