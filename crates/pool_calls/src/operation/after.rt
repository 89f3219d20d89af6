//! The place of a call after each event.
ghost use Rattle.std.specs.Prelude.{◌≡◌, ◌<◌, ◌≤◌, true, false, IfSome};
ghost use Rattle.std.specs.Option.{is_some};
ghost use Rattle.pool_calls.specs.declared.action.Event.TheVariants as events;
ghost use Rattle.pool_calls.specs.Left.{reports_left, stage_left};
ghost use Rattle.pool_calls.specs.Progress.{EndsBy, Takes};
ghost use Rattle.pool_calls.specs.Rules as rules;
ghost use Rattle.pool_calls.specs.Rules.{IsAt, work_due, work_left};

use super::Operation;
use crate::action::{End, Event, StepFailure};
use crate::answers::{after_request, count_of};
use crate::objects::{after_freeing, after_report};
use crate::places::work_on;
use crate::stage::{Object, Place, Request, Stage};
use crate::work::Task;
use pool_journal::{Answer, Outcome};

impl Operation {
    // The place of a call that has come to this stage by an answer.
    #[inline(always)]
    fn enter(&self, stage: Stage) -> Place
        ensures at { IsAt self.now.plan self.now.kind result stage }
        ensures works { work_left self.now.plan self.now.kind result
            ≡ work_due self.now.plan self.now.kind stage }
        ensures ends { EndsBy self.now.given_up stage result }
        ensures left { self.now.given_up ≡ true → reports_left result ≤ stage_left stage }
        ensures pauses { (rules.lacks_room result ≡ false) × (rules.is_waiting result ≡ false) }
    {
        if self.given_up && stage.is_free() {
            return Place::Ended(End::Cancelled);
        }
        match stage {
            Stage::Asks(request) => Place::Asks(request),
            Stage::Works(object) => {
                work_on(object, self.plan.work(self.kind, object.is_new).first())
            }
            Stage::Removes(object, outcome) => {
                if self.kind.destroys() {
                    Place::Destroys(outcome, object)
                } else {
                    Place::Frees(outcome, object)
                }
            }
            Stage::Gone(id) => Place::DestroysGone(id),
            Stage::Ends(end) => Place::Ended(end),
        }
    }

    // The same, for a stage to which this answer leads.
    #[inline(always)]
    pub(super) fn enter_by(&self, answer: Answer, stage: Stage) -> Place
        requires step { rules.has_step self.now.place ≡ true }
        requires due { stage ≡ rules.stage_after self.now.kind self.now.place answer }
        requires awake { rules.comes_to_wait self.now.kind (events.Answered answer) self.now.place
            ≡ false }
        requires left { self.now.given_up ≡ true → stage_left stage < reports_left self.now.place }
        ensures { Takes self.now.plan self.now.kind self.now.given_up (events.Answered answer)
            self.now.place result }
    {
        // A count has 64 bits, which bounds the reports that are left.
        let _count = count_of(answer);
        self.enter(stage)
    }

    // Whether the call waits after this answer.
    fn waits_by(&self, request: Request, answer: Answer) -> bool
        ensures { result ≡ rules.comes_to_wait self.now.kind (events.Answered answer)
            (Place.Asks request) }
    {
        match request {
            Request::Ask => self.kind.is_borrow() && matches!(answer, Answer::Wait),
            _ => false,
        }
    }

    // The place after an answer; `None` if no step was asked for.
    fn after_answer(&self, answer: Answer) -> Option<Place>
        ensures takes { IfSome result (Takes self.now.plan self.now.kind self.now.given_up
            (events.Answered answer) self.now.place) }
        ensures fits { is_some result ≡ rules.has_step self.now.place }
    {
        match self.place {
            Place::Asks(request) => {
                if self.waits_by(request, answer) {
                    Some(Place::Waits)
                } else {
                    Some(self.enter_by(answer, after_request(self.kind, request, answer)))
                }
            }
            Place::Reports(outcome, object) => {
                Some(self.enter_by(answer, after_report(self.kind, object, outcome, answer)))
            }
            Place::Frees(outcome, object) => {
                Some(self.enter_by(answer, after_freeing(self.kind, object, outcome, answer)))
            }
            _ => None,
        }
    }

    // The place after a step that was not taken; `None` if that can't be.
    fn after_no_step(&self, failure: StepFailure) -> Option<Place>
        ensures takes { IfSome result (Takes self.now.plan self.now.kind self.now.given_up
            (events.NotTaken failure) self.now.place) }
        ensures fits { is_some result ≡ rules.has_first_step self.now.place }
    {
        match self.place {
            Place::Asks(request) => match failure {
                StepFailure::JournalFull => Some(Place::LacksRoom(request)),
                StepFailure::OutOfMemory => Some(Place::Ended(End::NotTaken(failure))),
            },
            _ => None,
        }
    }

    // The place after the journal was cut; `None` if that was not asked for.
    fn after_room(&self) -> Option<Place>
        ensures takes { IfSome result (Takes self.now.plan self.now.kind self.now.given_up
            events.RoomMade self.now.place) }
        ensures fits { is_some result ≡ rules.lacks_room self.now.place }
    {
        match self.place {
            Place::LacksRoom(request) => Some(Place::Asks(request)),
            _ => None,
        }
    }

    // The place after the journal could not be cut; `None` if that was not asked for.
    fn after_no_room(&self) -> Option<Place>
        ensures takes { IfSome result (Takes self.now.plan self.now.kind self.now.given_up
            events.NoRoom self.now.place) }
        ensures fits { is_some result ≡ rules.lacks_room self.now.place }
    {
        match self.place {
            Place::LacksRoom(_) => Some(Place::Ended(End::NotTaken(StepFailure::JournalFull))),
            _ => None,
        }
    }

    // The place after this task on an object succeeded.
    #[inline(always)]
    pub(super) fn after_task(&self, task: Task, object: Object) -> Place
        requires { self.now.place ≡ Place.Works task object }
        ensures { Takes self.now.plan self.now.kind self.now.given_up events.Succeeded self.now.place
            result }
    {
        let work = self.plan.work(self.kind, object.is_new);
        work_on(object, work.after(task))
    }

    // The place after a success of the factory; `None` if it has nothing to do.
    fn after_success(&self) -> Option<Place>
        ensures takes { IfSome result (Takes self.now.plan self.now.kind self.now.given_up
            events.Succeeded self.now.place) }
        ensures fits { is_some result ≡ rules.has_work self.now.place }
    {
        match self.place {
            Place::Works(task, object) => Some(self.after_task(task, object)),
            Place::Destroys(outcome, object) => Some(Place::Frees(outcome, object)),
            Place::DestroysGone(_) => Some(Place::Ended(End::Gone)),
            _ => None,
        }
    }

    // The place after a task of the factory that failed; `None` if none was asked for.
    fn after_failure(&self) -> Option<Place>
        ensures takes { IfSome result (Takes self.now.plan self.now.kind self.now.given_up
            events.Failed self.now.place) }
        ensures fits { is_some result ≡ rules.has_work self.now.place }
    {
        if self.place.has_work() {
            Some(self.place.failed())
        } else {
            None
        }
    }

    // The place of a borrow that waits behind others; `None` if it does not ask.
    fn after_queueing(&self) -> Option<Place>
        ensures takes { IfSome result (Takes self.now.plan self.now.kind self.now.given_up
            events.Queued self.now.place) }
        ensures fits { is_some result ≡ rules.is_asking self.now.kind self.now.place }
    {
        match self.place {
            Place::Asks(Request::Ask) => {
                if self.kind.is_borrow() {
                    Some(Place::Waits)
                } else {
                    None
                }
            }
            _ => None,
        }
    }

    // The place after a wait; `None` if the call does not wait.
    fn after_waiting(&self, place: Place) -> Option<Place>
        ensures place { IfSome result (λ p. p ≡ place) }
        ensures waits { IfSome result (λ p. self.now.place ≡ Place.Waits) }
        ensures fits { is_some result ≡ rules.is_waiting self.now.place }
    {
        match self.place {
            Place::Waits => Some(place),
            _ => None,
        }
    }

    // The place of a call that is given up; `None` if it is over or was given up before.
    fn after_giving_up(&self) -> Option<Place>
        ensures takes { IfSome result (Takes self.now.plan self.now.kind self.now.given_up
            events.Cancelled self.now.place) }
        ensures fits { is_some result ≡ rules.fits self.now.kind self.now.given_up self.now.place
            events.Cancelled }
    {
        if self.given_up {
            return None;
        }
        match self.place {
            Place::Ended(_) => None,
            place => Some(place.given_up()),
        }
    }

    // The place after an event; `None` if it does not fit.
    pub(super) fn after(&self, event: Event) -> Option<Place>
        ensures takes { IfSome result (Takes self.now.plan self.now.kind self.now.given_up event
            self.now.place) }
        ensures fits { is_some result ≡ rules.fits self.now.kind self.now.given_up self.now.place event }
    {
        match event {
            Event::Answered(answer) => self.after_answer(answer),
            Event::NotTaken(failure) => self.after_no_step(failure),
            Event::RoomMade => self.after_room(),
            Event::NoRoom => self.after_no_room(),
            Event::Succeeded => self.after_success(),
            Event::Failed => self.after_failure(),
            Event::Queued => self.after_queueing(),
            Event::Woken => self.after_waiting(Place::Asks(Request::Ask)),
            Event::TimeOver => self.after_waiting(Place::Ended(End::TimedOut)),
            Event::Cancelled => self.after_giving_up(),
        }
    }
}
