//! A call of any kind: what its host does next, and what follows from what the host reports.
ghost use Rattle.std.specs.Prelude.{◌≡◌, ◌<◌, ◌≤◌, true, false, List, [], Some, IfNone, IfSome};
ghost use Rattle.pool_calls.specs.declared.action.Event.TheVariants as events;
ghost use Rattle.pool_calls.specs.Left.{reports_left, stage_left};
ghost use Rattle.pool_calls.specs.Progress.{Takes};
ghost use Rattle.pool_calls.specs.Rules as rules;
ghost use Rattle.pool_calls.specs.Rules.{work_left, step_for};
ghost use Rattle.pool_calls.specs.Steps.{is_borrow};
ghost use Rattle.pool_calls.specs.Counting.{counts_after};
ghost use Rattle.pool_calls.specs.Turns.{Turn, step_of, asks_make, asks_room, asks_wait, is_done, is_full, IsFirst};

mod after;
mod at_once;
mod words;

use crate::action::{Action, End, Event};
use crate::answers::works;
use crate::call_counts::CallCounts;
use crate::hook_plan::HookPlan;
use crate::kind::Kind;
use crate::stage::{Place, Request, Stage};
use crate::work::Task;
use pool_journal::{Answer, Input, Outcome, When};
pub use words::OperationWords;

/// A call: what its host does next, and what follows from what the host reports.
///
/// A host takes the action, without a lock if it is the factory's, and reports what came of it. It may give the call up
/// at any time, once: then the call ends after three more reports at most.
#[derive(Clone, Copy)]
pub struct Operation {
    kind: Kind,
    plan: HookPlan,
    given_up: bool,
    counts: CallCounts,
    place: Place,
    ghost few_left: { given_up ≡ true → reports_left place ≤ 3 },
    ghost only_borrows_wait: { rules.is_waiting place ≡ true → is_borrow kind ≡ true },
}

impl Operation {
    ghost use Rattle.pool_calls.specs.Operations.{HasCome, ComesOn, IsRight, Proceeds, began_of, comes_to_wait, fits, is_making, is_over, is_waiting, lacks_room, step_at};

    /// Returns a call of this kind.
    #[tactic(auto, unfolding(crate::specs::Operations::HasCome))]
    pub fn new(plan: HookPlan, kind: Kind) -> Operation
        ensures given { (result.plan ≡ plan) × (result.kind ≡ kind) × (result.given_up ≡ false) }
        ensures come { HasCome result [] }
        ensures first { step_at result ≡ Some (rules.first_step plan kind) }
    {
        let request = if kind.is_borrow() && plan.remove_abandoned_on_borrow {
            Request::Begin
        } else {
            Request::Ask
        };
        Operation {
            kind,
            plan,
            given_up: false,
            counts: CallCounts {
                objects: 0,
                freed: 0,
            },
            place: Place::Asks(request),
        }
    }

    /// Returns the kind of call.
    pub fn kind(&self) -> Kind
        ensures { result ≡ self.now.kind }
    {
        self.kind
    }

    /// Returns what the call has come to.
    pub fn counts(&self) -> CallCounts
        ensures { result ≡ self.now.counts }
    {
        self.counts
    }

    /// Returns the time at which a borrow began, in milliseconds; `None` of another call.
    pub fn began(&self) -> Option<u64>
        ensures began { result ≡ began_of self.now }
        ensures waits { IfNone result (is_waiting self.now ≡ false) }
    {
        match self.kind {
            Kind::Borrow(began) => Some(began),
            _ => None,
        }
    }

    // The step for a request.
    #[inline(always)]
    fn step_for(&self, request: Request) -> Input
        ensures { result ≡ step_for self.now.kind request }
    {
        match request {
            Request::Begin => Input::Reclaim { on: When::Borrow },
            Request::Ask => self.kind.ask(),
            Request::Next(_) => self.kind.next(),
        }
    }

    /// Returns what the host does next.
    #[tactic(auto, unfolding(crate::specs::Operations::HasCome, crate::specs::Operations::IsRight))]
    #[inline(always)]
    pub fn action(&self) -> Action
        ensures right { (turns : List Turn) → HasCome self.now turns → IsRight self.now turns result }
        ensures step { step_of result ≡ step_at self.now }
        ensures works { IsFirst (work_left self.now.plan self.now.kind self.now.place) result }
        ensures room { asks_room result ≡ lacks_room self.now }
        ensures wait { asks_wait result ≡ is_waiting self.now }
        ensures make { asks_make result ≡ is_making self.now }
        ensures over { is_done result ≡ is_over self.now }
    {
        match self.place {
            Place::Asks(request) => Action::Step(self.step_for(request)),
            Place::LacksRoom(_) => Action::MakeRoom,
            Place::Waits => Action::Wait,
            Place::Works(Task::Make, object) => Action::Make(object.id),
            Place::Works(Task::TestNew | Task::Test, object) => Action::Validate(object.id),
            Place::Works(Task::Activate, object) => Action::Activate(object.id),
            Place::Works(Task::Passivate, object) => Action::Passivate(object.id),
            Place::Reports(outcome, object) => {
                Action::Step(self.kind.report(object.id, outcome))
            }
            Place::Destroys(_, object) => Action::Destroy(object.id),
            Place::Frees(_, object) => Action::Step(Input::Destroyed { id: object.id }),
            Place::DestroysGone(id) => Action::Destroy(id),
            Place::Ended(end) => Action::Done(end),
        }
    }

    // The counts after an event.
    #[inline(always)]
    fn counts_after(&self, event: Event) -> CallCounts
        ensures { result ≡ counts_after self.now.kind event self.now.counts }
    {
        match event {
            Event::Answered(answer) => self.counts.with(self.kind, answer),
            _ => self.counts,
        }
    }

    // Goes on to this place by an event.
    #[inline(always)]
    #[tactic(auto, unfolding(crate::specs::Operations::Proceeds))]
    fn move_to(&mut self, event: Event, place: Place)
        requires fits { fits self.old event ≡ true }
        requires takes { Takes self.old.plan self.old.kind self.old.given_up event self.old.place
            place }
        ensures comes { ComesOn event self.old self.new }
        ensures proceeds { Proceeds event self.old self.new }
        ensures room { lacks_room self.new ≡ is_full event }
        ensures wait { is_waiting self.new ≡ comes_to_wait event self.old }
    {
        self.counts = self.counts_after(event);
        self.given_up = self.given_up || matches!(event, Event::Cancelled);
        self.place = place;
    }

    // Goes on to this stage by an answer.
    #[inline(always)]
    fn move_by(&mut self, answer: Answer, stage: Stage)
        requires step { rules.has_step self.old.place ≡ true }
        requires due { stage ≡ rules.stage_after self.old.kind self.old.place answer }
        requires awake { rules.comes_to_wait self.old.kind (events.Answered answer) self.old.place
            ≡ false }
        requires left { self.old.given_up ≡ true → stage_left stage < reports_left self.old.place }
        ensures comes { ComesOn (events.Answered answer) self.old self.new }
        ensures proceeds { Proceeds (events.Answered answer) self.old self.new }
        ensures room { lacks_room self.new ≡ false }
        ensures wait { is_waiting self.new ≡ false }
    {
        let place = self.enter_by(answer, stage);
        self.move_to(Event::Answered(answer), place);
    }

    // The stage after a usual answer to a borrow or a return; `None` if it is none.
    #[inline(always)]
    fn usual_stage(&self, answer: Answer) -> Option<Stage>
        ensures step { IfSome result (λ s. rules.has_step self.now.place ≡ true) }
        ensures due { IfSome result
            (λ s. s ≡ rules.stage_after self.now.kind self.now.place answer) }
        ensures awake { IfSome result (λ s. rules.comes_to_wait self.now.kind
            (events.Answered answer) self.now.place ≡ false) }
        ensures left { IfSome result (λ s. self.now.given_up ≡ true
            → stage_left s < reports_left self.now.place) }
        ensures fits { IfSome result (λ s. fits self.now (events.Answered answer) ≡ true) }
    {
        match self.place {
            Place::Asks(Request::Ask) => match (self.kind, answer) {
                (Kind::Borrow(_), Answer::Take(id)) | (Kind::Return(id), Answer::Check) => {
                    Some(works(id, false, 0))
                }
                _ => None,
            },
            Place::Reports(Outcome::Good, object) => match (self.kind, answer) {
                (Kind::Borrow(_), Answer::Lent) => Some(Stage::Ends(End::Lent(object.id))),
                (Kind::Return(_), Answer::Parked) => Some(Stage::Ends(End::Parked)),
                _ => None,
            },
            _ => None,
        }
    }

    // Reports a usual answer to a borrow or a return. Returns whether it is one; otherwise nothing
    // changes.
    #[inline(always)]
    fn tell_usual_answer(&mut self, answer: Answer) -> bool
        ensures comes { result ≡ true → ComesOn (events.Answered answer) self.old self.new }
        ensures proceeds { result ≡ true → Proceeds (events.Answered answer) self.old self.new }
        ensures room { result ≡ true → lacks_room self.new ≡ false }
        ensures wait { result ≡ true
            → is_waiting self.new ≡ comes_to_wait (events.Answered answer) self.old }
        ensures fits { result ≡ true → fits self.old (events.Answered answer) ≡ true }
        ensures unusual { result ≡ false → self.new ≡ self.old }
    {
        let Some(stage) = self.usual_stage(answer) else {
            return false;
        };
        self.move_by(answer, stage);
        true
    }

    // Reports a success of the factory. Returns whether it fits.
    #[inline(always)]
    fn tell_success(&mut self) -> bool
        ensures comes { result ≡ true → ComesOn events.Succeeded self.old self.new }
        ensures proceeds { result ≡ true → Proceeds events.Succeeded self.old self.new }
        ensures room { result ≡ true → lacks_room self.new ≡ false }
        ensures wait { result ≡ true → is_waiting self.new ≡ false }
        ensures fits { result ≡ fits self.old events.Succeeded }
        ensures unfit { result ≡ false → self.new ≡ self.old }
    {
        match self.place {
            Place::Works(task, object) => {
                let place = self.after_task(task, object);
                self.move_to(Event::Succeeded, place);
                true
            }
            Place::Destroys(outcome, object) => {
                self.move_to(Event::Succeeded, Place::Frees(outcome, object));
                true
            }
            Place::DestroysGone(_) => {
                self.move_to(Event::Succeeded, Place::Ended(End::Gone));
                true
            }
            _ => false,
        }
    }

    // Reports an event of any kind. Returns whether it fits.
    #[inline(never)]
    fn tell_any(&mut self, event: Event) -> bool
        ensures comes { result ≡ true → ComesOn event self.old self.new }
        ensures proceeds { result ≡ true → Proceeds event self.old self.new }
        ensures room { result ≡ true → lacks_room self.new ≡ is_full event }
        ensures wait { result ≡ true → is_waiting self.new ≡ comes_to_wait event self.old }
        ensures fits { result ≡ fits self.old event }
        ensures unfit { result ≡ false → self.new ≡ self.old }
    {
        match self.after(event) {
            Some(place) => {
                self.move_to(event, place);
                true
            }
            None => false,
        }
    }

    /// Reports an event. Returns whether it fits what the host was asked to do. Otherwise nothing changes.
    #[inline(always)]
    pub fn tell(&mut self, event: Event) -> bool
        ensures comes { result ≡ true → ComesOn event self.old self.new }
        ensures proceeds { result ≡ true → Proceeds event self.old self.new }
        ensures room { result ≡ true → lacks_room self.new ≡ is_full event }
        ensures wait { result ≡ true → is_waiting self.new ≡ comes_to_wait event self.old }
        ensures fits { result ≡ fits self.old event }
        ensures unfit { result ≡ false → self.new ≡ self.old }
    {
        match event {
            Event::Answered(answer) => {
                if self.tell_usual_answer(answer) {
                    true
                } else {
                    self.tell_any(Event::Answered(answer))
                }
            }
            Event::Succeeded => self.tell_success(),
            other => self.tell_any(other),
        }
    }
}
