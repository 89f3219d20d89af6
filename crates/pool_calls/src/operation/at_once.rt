//! A borrow and a return in their usual course, as the values that they come to: by one step, and by both at once.
ghost use Rattle.std.specs.Prelude.{◌≡◌, true, Some, IfSome};
ghost use Rattle.pool_journal.specs.declared.input.Input.TheVariants as inputs;
ghost use Rattle.pool_calls.specs.AtOnce.{Goes, IsLent, IsParked};
ghost use Rattle.pool_calls.specs.Operations.{step_at};

use super::Operation;
use crate::action::End;
use crate::kind::Kind;
use crate::stage::{Place, Request};
use pool_journal::Answer;

impl Operation {
    // Whether the call asks as those of its kind do.
    #[inline(always)]
    fn asks(&self) -> bool
        ensures { result ≡ true → self.now.place ≡ Place.Asks Request.Ask }
    {
        matches!(self.place, Place::Asks(Request::Ask))
    }

    // The call at its end.
    #[inline(always)]
    fn ended(&self, end: End) -> Operation
        ensures given { (result.kind ≡ self.now.kind) × (result.plan ≡ self.now.plan)
            × (result.given_up ≡ self.now.given_up) × (result.counts ≡ self.now.counts) }
        ensures place { result.place ≡ Place.Ended end }
    {
        Operation {
            kind: self.kind,
            plan: self.plan,
            given_up: self.given_up,
            counts: self.counts,
            place: Place::Ended(end),
        }
    }

    /// Returns the call as it is after this answer to its step, if a borrow or a return has that in its usual course.
    #[inline(always)]
    pub fn after_usual(&self, answer: Answer) -> Option<Operation>
        ensures { IfSome result (Goes answer self.now) }
    {
        let mut after = *self;
        if after.tell_usual_answer(answer) {
            Some(after)
        } else {
            None
        }
    }

    /// Returns a borrow as it is once it took the object with this id and was lent it, by its two steps. Returns `None` if
    /// its host is asked for something between them, or it does not ask for an object.
    #[inline(always)]
    pub fn lent_at_once(&self, id: u64) -> Option<Operation>
        ensures { IfSome result (IsLent id self.now) }
    {
        if !self.asks() || self.given_up || self.plan.activates || self.plan.test_on_borrow {
            return None;
        }
        match self.kind {
            Kind::Borrow(_) => Some(self.ended(End::Lent(id))),
            _ => None,
        }
    }

    /// Returns a return as it is once its object was checked and is idle, by its two steps. Returns `None` if its host is
    /// asked for something between them, or it does not return an object.
    #[inline(always)]
    pub fn parked_at_once(&self, id: u64) -> Option<Operation>
        requires { step_at self.now ≡ Some (inputs.GiveBack id) }
        ensures { IfSome result (IsParked id self.now) }
    {
        if !self.asks() || self.given_up || self.plan.passivates || self.plan.test_on_return {
            return None;
        }
        match self.kind {
            Kind::Return(_) => Some(self.ended(End::Parked)),
            _ => None,
        }
    }
}
