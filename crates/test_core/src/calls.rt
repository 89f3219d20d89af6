//! Borrows and returns, action by action.

use crate::checks::expect_equal;
use pool_calls::{Action, End, Event, HookPlan, Kind, Operation, StepFailure};
use pool_journal::{Answer, Cause, Input, Outcome, When};
use std::process::Abort;

// All hooks and tests are set, or none.
fn plan(all: bool) -> HookPlan {
    HookPlan {
        remove_abandoned_on_borrow: all,
        test_on_create: all,
        test_on_borrow: all,
        test_on_return: all,
        activates: all,
        passivates: all,
    }
}

fn ready(outcome: Outcome) -> Action {
    Action::Step(Input::Ready { id: 5, outcome })
}

fn park(outcome: Outcome) -> Action {
    Action::Step(Input::Park { id: 5, outcome })
}

const ASKS: Action = Action::Step(Input::Borrow { began: 70 });

const FREES: Action = Action::Step(Input::Destroyed { id: 5 });

const GIVES: Action = Action::Step(Input::GiveBack { id: 5 });

// Reports one event after another to a call, and compares the action before each, and the end. Then nothing fits.
fn play(rt: &impl Abort, all: bool, kind: Kind, turns: &[(Action, Event)], end: End) {
    let mut call = Operation::new(plan(all), kind);
    for (action, event) in turns {
        expect_equal(rt, call.action(), *action);
        expect_equal(rt, call.tell(*event), true);
    }
    expect_equal(rt, call.action(), Action::Done(end));
    expect_equal(rt, call.tell(Event::Succeeded), false);
    expect_equal(rt, call.tell(Event::Woken), false);
    expect_equal(rt, call.tell(Event::Cancelled), false);
}

fn borrow(rt: &impl Abort, all: bool, turns: &[(Action, Event)], end: End) {
    play(rt, all, Kind::Borrow(70), turns, end);
}

fn give_back(rt: &impl Abort, all: bool, turns: &[(Action, Event)], end: End) {
    play(rt, all, Kind::Return(5), turns, end);
}

#[test]
fn an_idle_object_is_lent_by_two_steps(rt: HostRuntime) {
    let turns = [
        (ASKS, Event::Answered(Answer::Take(5))),
        (ready(Outcome::Good), Event::Answered(Answer::Lent)),
    ];
    borrow(&rt, false, &turns, End::Lent(5));
}

#[test]
fn a_new_object_is_made_tested_and_activated(rt: HostRuntime) {
    let reclaims = Action::Step(Input::Reclaim { on: When::Borrow });
    let turns = [
        (reclaims, Event::Answered(Answer::Count(2))),
        (
            Action::Step(Input::ReclaimNext),
            Event::Answered(Answer::Reclaimed(9)),
        ),
        (
            Action::Step(Input::ReclaimNext),
            Event::Answered(Answer::Nothing),
        ),
        (ASKS, Event::Answered(Answer::Make(5))),
        (Action::Make(5), Event::Succeeded),
        (Action::Validate(5), Event::Succeeded),
        (Action::Activate(5), Event::Succeeded),
        (Action::Validate(5), Event::Succeeded),
        (ready(Outcome::Good), Event::Answered(Answer::Lent)),
    ];
    borrow(&rt, true, &turns, End::Lent(5));
}

#[test]
fn a_borrow_waits_and_times_out(rt: HostRuntime) {
    let turns = [
        (ASKS, Event::Answered(Answer::Wait)),
        (Action::Wait, Event::Woken),
        (ASKS, Event::Answered(Answer::TimedOut)),
    ];
    borrow(&rt, false, &turns, End::TimedOut);
}

#[test]
fn a_full_journal_is_cut(rt: HostRuntime) {
    let full = Event::NotTaken(StepFailure::JournalFull);
    let turns = [
        (ASKS, full),
        (Action::MakeRoom, Event::RoomMade),
        (ASKS, full),
        (Action::MakeRoom, Event::NoRoom),
    ];
    let end = End::NotTaken(StepFailure::JournalFull);
    borrow(&rt, false, &turns, end);
    let turns = [
        (GIVES, full),
        (Action::MakeRoom, Event::RoomMade),
        (GIVES, Event::NotTaken(StepFailure::OutOfMemory)),
    ];
    give_back(&rt, false, &turns, End::NotTaken(StepFailure::OutOfMemory));
}

#[test]
fn a_borrow_that_is_given_up_frees_its_place(rt: HostRuntime) {
    let turns = [
        (ASKS, Event::Answered(Answer::Make(5))),
        (Action::Make(5), Event::Cancelled),
        (ready(Outcome::MakeFailed), Event::Answered(Answer::Freed)),
    ];
    borrow(&rt, false, &turns, End::MakeFailed);
    let reclaims = Action::Step(Input::Reclaim { on: When::Borrow });
    let turns = [
        (reclaims, Event::Answered(Answer::Count(0))),
        (ASKS, Event::Answered(Answer::Take(5))),
        (Action::Activate(5), Event::Succeeded),
        (Action::Validate(5), Event::Cancelled),
        (ready(Outcome::TestFailed), Event::Answered(Answer::Destroy)),
        (Action::Destroy(5), Event::Failed),
        (FREES, Event::Answered(Answer::Freed)),
    ];
    borrow(&rt, true, &turns, End::Cancelled);
}

#[test]
fn a_returned_object_is_tested_and_parked(rt: HostRuntime) {
    let turns = [
        (GIVES, Event::Answered(Answer::Check)),
        (Action::Validate(5), Event::Succeeded),
        (Action::Passivate(5), Event::Succeeded),
        (park(Outcome::Good), Event::Answered(Answer::Parked)),
    ];
    give_back(&rt, true, &turns, End::Parked);
}

#[test]
fn a_returned_object_is_destroyed(rt: HostRuntime) {
    let turns = [
        (GIVES, Event::Answered(Answer::Check)),
        (Action::Validate(5), Event::Failed),
        (park(Outcome::TestFailed), Event::Answered(Answer::Destroy)),
        (Action::Destroy(5), Event::Succeeded),
        (FREES, Event::Answered(Answer::Freed)),
    ];
    give_back(&rt, true, &turns, End::Destroyed);
    let turns = [
        (GIVES, Event::Answered(Answer::Gone)),
        (Action::Destroy(5), Event::Succeeded),
    ];
    give_back(&rt, false, &turns, End::Gone);
    let turns = [(GIVES, Event::Answered(Answer::Refused(Cause::NotLent)))];
    give_back(&rt, false, &turns, End::NotLent);
}
