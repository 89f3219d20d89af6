//! The usual course of a borrow and of a return: an idle object is taken, and a lent one comes back. Where the host need
//! not be asked, both steps are taken at once.
ghost use Rattle.std.specs.Prelude.{◌≡◌, true, false, None, Some, IfSome};
ghost use Rattle.pool_calls.specs.Operations.{step_at};
ghost use Rattle.pool_core.specs.Core.{Answered};
ghost use Rattle.pool_core.specs.Reply.{has_room, reply_from};
ghost use Rattle.pool_journal.specs.Base.{closed_from, records_from};
ghost use Rattle.pool_journal.specs.declared.answer.Answer.TheVariants as answers;
ghost use Rattle.pool_journal.specs.declared.input.Input.TheVariants as inputs;
ghost use Rattle.pool_journal.specs.declared.input.Outcome.TheVariants as outcomes;
ghost use Rattle.pool_host.specs.Hosting.{IsAvailable, handed, may_come_in};
ghost use Rattle.pool_host.specs.Going.{Stepped};
ghost use Rattle.pool_host.specs.Overtaking.{is_borrow, is_newcomer};

use crate::call::Call;
use crate::pool::HostedPool;
use pool_journal::{Answer, Input, Outcome};

impl HostedPool {
    /// Returns whether the queue of idle objects takes one more.
    #[inline(always)]
    pub(crate) fn has_idle_room(&self) -> bool
        ensures { result ≡ has_room self.now.core.settings
            (closed_from self.now.core.base self.now.core.journal)
            (records_from self.now.core.base self.now.core.journal) }
    {
        if self.is_closed() {
            return false;
        }
        match u64::try_from(self.settings.max_idle) {
            Ok(most) => self.core.counts().idle < most,
            Err(_) => true,
        }
    }

    // Lends an idle object by both steps of a borrow, if its host need not be asked. Returns whether it did; otherwise
    // nothing changes.
    #[inline(always)]
    fn lend_idle(
        &mut self,
        call: &mut Call,
        caller: u32,
        at: u64,
        began: u64,
        id: u64,
        available: u64,
    ) -> bool
        requires asked { step_at call.old.operation ≡ Some (inputs.Borrow began) }
        requires due { answers.Take id ≡ reply_from self.old.core.settings self.old.core.base
            self.old.core.journal at (inputs.Borrow began) }
        requires available { IsAvailable self.old available }
        requires may { is_newcomer call.old ≡ true → may_come_in available at self.old ≡ true }
        ensures stepped { result ≡ true
            → Stepped (inputs.Borrow began) caller at self.old self.new call.old call.new }
        ensures unchanged { result ≡ false → (self.new ≡ self.old) × (call.new ≡ call.old) }
    {
        let Some(lent) = call.operation.lent_at_once(id) else {
            return false;
        };
        let Ok(token) = self.core.lend_idle(caller, at, began, id) else {
            return false;
        };
        self.note_found(call, available, at);
        call.operation = lent;
        call.token = token;
        true
    }

    // Takes an idle object by the first step of a borrow. Returns whether it did; otherwise nothing changes.
    #[inline(always)]
    fn take_idle(
        &mut self,
        call: &mut Call,
        caller: u32,
        at: u64,
        began: u64,
        id: u64,
        available: u64,
    ) -> bool
        requires asked { step_at call.old.operation ≡ Some (inputs.Borrow began) }
        requires due { answers.Take id ≡ reply_from self.old.core.settings self.old.core.base
            self.old.core.journal at (inputs.Borrow began) }
        requires available { IsAvailable self.old available }
        requires may { is_newcomer call.old ≡ true → may_come_in available at self.old ≡ true }
        ensures stepped { result ≡ true
            → Stepped (inputs.Borrow began) caller at self.old self.new call.old call.new }
        ensures unchanged { result ≡ false → (self.new ≡ self.old) × (call.new ≡ call.old) }
    {
        let Some(taken) = call.operation.after_usual(Answer::Take(id)) else {
            return false;
        };
        let input = Input::Borrow { began };
        let Ok(out) = self
            .core
            .step_due(caller, at, input, Answer::Take(id), None)
        else {
            return false;
        };
        self.note_found(call, available, at);
        call.operation = taken;
        call.token = out.unwrap_or(call.token);
        true
    }

    // The idle object that a borrow takes, if one is there and it may have it, with the number of available objects and places.
    #[inline(always)]
    fn idle_for(&self, call: &Call, at: u64, began: u64) -> Option<(u64, u64)>
        ensures due { IfSome result (λ r. answers.Take r.0 ≡ reply_from self.now.core.settings
            self.now.core.base self.now.core.journal at (inputs.Borrow began)) }
        ensures available { IfSome result (λ r. IsAvailable self.now r.1) }
        ensures may { IfSome result (λ r. is_newcomer call.now ≡ true
            → may_come_in r.1 at self.now ≡ true) }
    {
        let available = self.available_to_newcomer();
        if self.is_to_forget() || !self.may_ask(call, available, at) {
            return None;
        }
        match self.core.due(at, Input::Borrow { began }) {
            Answer::Take(id) => Some((id, available)),
            _ => None,
        }
    }

    /// A borrow is lent an idle object by both of its steps, if one is there and it may have it, and its host need not be asked.
    /// Returns whether it was; otherwise nothing changes.
    #[inline(always)]
    pub(crate) fn borrow_whole(&mut self, call: &mut Call, caller: u32, at: u64, began: u64) -> bool
        requires asked { step_at call.old.operation ≡ Some (inputs.Borrow began) }
        ensures stepped { result ≡ true
            → Stepped (inputs.Borrow began) caller at self.old self.new call.old call.new }
        ensures unchanged { result ≡ false → (self.new ≡ self.old) × (call.new ≡ call.old) }
    {
        match self.idle_for(call, at, began) {
            Some((id, available)) => self.lend_idle(call, caller, at, began, id, available),
            None => false,
        }
    }

    /// A borrow takes an idle object by its first step, if one is there and it may have it. Returns whether it took one; otherwise
    /// nothing changes.
    #[inline(always)]
    pub(crate) fn borrow_idle(&mut self, call: &mut Call, caller: u32, at: u64, began: u64) -> bool
        requires asked { step_at call.old.operation ≡ Some (inputs.Borrow began) }
        ensures stepped { result ≡ true
            → Stepped (inputs.Borrow began) caller at self.old self.new call.old call.new }
        ensures unchanged { result ≡ false → (self.new ≡ self.old) × (call.new ≡ call.old) }
    {
        match self.idle_for(call, at, began) {
            Some((id, available)) => self.take_idle(call, caller, at, began, id, available),
            None => false,
        }
    }

    // Has a returned object checked, if that is the expected answer. Returns whether it did; otherwise nothing
    // changes.
    #[inline]
    fn begin_return(&mut self, caller: u32, at: u64, id: u64) -> bool
        ensures answered { result ≡ true → Answered caller at (inputs.GiveBack id) None
            self.old.core self.new.core answers.Check None }
        ensures rest { self.new ≡ record self.old { core = self.new.core } }
        ensures unchanged { result ≡ false → self.new ≡ self.old }
    {
        let input = Input::GiveBack { id };
        if self.is_to_forget() || !matches!(self.core.due(at, input), Answer::Check) {
            return false;
        }
        match self.core.complete(caller, at, input, Answer::Check, None) {
            None => true,
            Some(_) => unreachable!(),
        }
    }

    // Lends an object that is ready and good, if that is the expected answer. Returns whether it did; otherwise nothing
    // changes.
    #[inline]
    fn lend(&mut self, caller: u32, at: u64, id: u64) -> bool
        ensures answered { result ≡ true → Answered caller at (inputs.Ready id outcomes.Good) None
            self.old.core self.new.core answers.Lent None }
        ensures rest { self.new ≡ record self.old { core = self.new.core } }
        ensures unchanged { result ≡ false → self.new ≡ self.old }
    {
        let outcome = Outcome::Good;
        let input = Input::Ready { id, outcome };
        if self.is_to_forget() || !matches!(self.core.due(at, input), Answer::Lent) {
            return false;
        }
        match self.core.complete(caller, at, input, Answer::Lent, None) {
            None => true,
            Some(_) => unreachable!(),
        }
    }

    // Makes a returned object idle that is good, if that is the expected answer. Returns whether it did; otherwise nothing
    // changes.
    #[inline]
    fn park(&mut self, caller: u32, at: u64, id: u64, token: u64) -> bool
        ensures answered { result ≡ true → Answered caller at (inputs.Park id outcomes.Good) (Some token)
            self.old.core self.new.core answers.Parked None }
        ensures rest { self.new ≡ record self.old { core = self.new.core } }
        ensures unchanged { result ≡ false → self.new ≡ self.old }
    {
        let outcome = Outcome::Good;
        let input = Input::Park { id, outcome };
        if self.is_to_forget() || !matches!(self.core.due(at, input), Answer::Parked) {
            return false;
        }
        match self
            .core
            .complete(caller, at, input, Answer::Parked, Some(token))
        {
            None => true,
            Some(_) => unreachable!(),
        }
    }

    // Takes a step by which a borrow or a return goes on in its usual course, if this is the expected answer: the one that ends a
    // borrow, the one that ends a return, or the check of a returned object. Returns whether it did; otherwise nothing changes.
    // Each kind of step has a copy of its own.
    #[inline(always)]
    fn step_usual<const IS_END: bool, const IS_BORROW: bool>(
        &mut self,
        caller: u32,
        at: u64,
        input: Input,
        answer: Answer,
        token: u64,
    ) -> bool
        ensures answered { result ≡ true → Answered caller at input (handed input token)
            self.old.core self.new.core answer None }
        ensures rest { self.new ≡ record self.old { core = self.new.core } }
        ensures unchanged { result ≡ false → self.new ≡ self.old }
    {
        if !IS_END {
            return match (input, answer) {
                (Input::GiveBack { id }, Answer::Check) => self.begin_return(caller, at, id),
                _ => false,
            };
        }
        if IS_BORROW {
            return match (input, answer) {
                (Input::Ready { id, outcome }, Answer::Lent) => {
                    matches!(outcome, Outcome::Good) && self.lend(caller, at, id)
                }
                _ => false,
            };
        }
        match (input, answer) {
            (Input::Park { id, outcome }, Answer::Parked) => {
                matches!(outcome, Outcome::Good) && self.park(caller, at, id, token)
            }
            _ => false,
        }
    }

    /// Takes a step that is not a borrow's first, if the expected answer is this one, which its call has in its usual course.
    /// Returns whether it did; otherwise nothing changes.
    #[inline(always)]
    pub(crate) fn take_usual<const IS_END: bool, const IS_BORROW: bool>(
        &mut self,
        call: &mut Call,
        caller: u32,
        at: u64,
        input: Input,
        answer: Answer,
    ) -> bool
        requires asked { step_at call.old.operation ≡ Some input }
        requires other { is_borrow input ≡ false }
        ensures stepped { result ≡ true
            → Stepped input caller at self.old self.new call.old call.new }
        ensures unchanged { result ≡ false → (self.new ≡ self.old) × (call.new ≡ call.old) }
    {
        let Some(after) = call.operation.after_usual(answer) else {
            return false;
        };
        if !self.step_usual::<IS_END, IS_BORROW>(caller, at, input, answer, call.token) {
            return false;
        }
        call.operation = after;
        true
    }

    /// A return gives its lent object back by both of its steps, if its host need not be asked and the queue has room. Returns
    /// whether it did; otherwise nothing changes.
    #[inline(always)]
    pub(crate) fn return_whole(&mut self, call: &mut Call, caller: u32, at: u64, id: u64) -> bool
        requires asked { step_at call.old.operation ≡ Some (inputs.GiveBack id) }
        ensures stepped { result ≡ true
            → Stepped (inputs.GiveBack id) caller at self.old self.new call.old call.new }
        ensures unchanged { result ≡ false → (self.new ≡ self.old) × (call.new ≡ call.old) }
    {
        let Some(parked) = call.operation.parked_at_once(id) else {
            return false;
        };
        if self.is_to_forget() || !self.has_idle_room() {
            return false;
        }
        let Answer::Check = self.core.due(at, Input::GiveBack { id }) else {
            return false;
        };
        self.core.park_lent(caller, at, id, call.token);
        call.operation = parked;
        true
    }
}
