//! How a borrow and a return go on where they take their usual course: how they begin, and how they end after the factory's
//! work.
ghost use Rattle.std.specs.Prelude.{◌≡◌, ℕ, max, true, IfNone, IfSome, Some};
ghost use Rattle.std.specs.Option.{is_some};
ghost use Rattle.pool_calls.specs.Operations.{step_at};
ghost use Rattle.pool_host.specs.Hosting.{HostedModel, asks_at_borrow, asks_at_return};
ghost use Rattle.pool_host.specs.Going.{Heard, Stepped, WentOn};
ghost use Rattle.pool_host.specs.Overtaking.{is_borrow};
ghost use Rattle.pool_host.specs.declared.call.Call.{Call};
ghost use Rattle.pool_host.specs.declared.report.Report.{Report};
ghost use Rattle.pool_host.specs.declared.report.Report.TheVariants as reports;
ghost use Rattle.pool_journal.specs.declared.input.Input.{Input};

use crate::call::Call;
use crate::effects::Effects;
use crate::pool::HostedPool;
use crate::stepping::accept_success;
use pool_calls::Action;
use pool_journal::{Answer, Input};

/// Returns whether an input begins a borrow.
#[inline(always)]
fn is_borrow(input: Input) -> bool
    ensures { result ≡ is_borrow input }
{
    matches!(input, Input::Borrow { .. })
}

impl HostedPool {
    /// Returns whether a borrow of an idle object has its host do something, or removes abandoned objects first.
    #[inline(always)]
    pub fn asks_at_borrow(&self) -> bool
        ensures { result ≡ asks_at_borrow self.now.plan }
    {
        self.plan.activates || self.plan.test_on_borrow || self.plan.remove_abandoned_on_borrow
    }

    /// Returns whether a return has its host do something.
    #[inline(always)]
    pub fn asks_at_return(&self) -> bool
        ensures { result ≡ asks_at_return self.now.plan }
    {
        self.plan.passivates || self.plan.test_on_return
    }

    // What the host does next of a call that was told a report, and then took a step.
    #[inline(always)]
    fn stepped(&mut self, call: &mut Call, at: u64) -> Effects
        ensures { (report : Report) (caller : ℕ) (old heard : HostedModel) (before mid : Call)
            (input : Input) → Heard report at old heard before mid
            → step_at mid.operation ≡ Some input
            → Stepped input caller at heard self.old mid call.old
            → WentOn report caller at old self.new before call.new result }
    {
        let action = call.operation.action();
        self.went(call, action, at)
    }

    /// Goes on with a borrow that begins, as `advance` with `GoOn`, if it is lent an idle object at once.
    ///
    /// Returns `None`, and changes nothing, if it is not, or is another call.
    #[inline(always)]
    pub fn begin_lent(&mut self, call: &mut Call, caller: u32, at: u64) -> Option<Effects>
        ensures went { IfSome result (WentOn reports.GoOn caller (max at self.old.last) self.old
            self.new call.old call.new) }
        ensures unchanged { IfNone result ((self.new ≡ self.old) × (call.new ≡ call.old)) }
    {
        let at = at.max(self.last);
        let Action::Step(input) = call.operation.action() else {
            return None;
        };
        let Input::Borrow { began } = input else {
            return None;
        };
        if !self.borrow_whole(call, caller, at, began) {
            return None;
        }
        Some(self.stepped(call, at))
    }

    /// Goes on with a return that begins, as `advance` with `GoOn`, if its object is idle at once.
    ///
    /// Returns `None`, and changes nothing, if it is not, or the call is another one.
    #[inline(always)]
    pub fn begin_parked(&mut self, call: &mut Call, caller: u32, at: u64) -> Option<Effects>
        ensures went { IfSome result (WentOn reports.GoOn caller (max at self.old.last) self.old
            self.new call.old call.new) }
        ensures unchanged { IfNone result ((self.new ≡ self.old) × (call.new ≡ call.old)) }
    {
        let at = at.max(self.last);
        let Action::Step(input) = call.operation.action() else {
            return None;
        };
        let Input::GiveBack { id } = input else {
            return None;
        };
        if !self.return_whole(call, caller, at, id) {
            return None;
        }
        Some(self.stepped(call, at))
    }

    /// Goes on with a borrow that begins, as `advance` with `GoOn`, if it takes an idle object by its first step.
    ///
    /// Returns `None`, and changes nothing, if it does not, or is another call.
    #[inline(always)]
    pub fn begin_taken(&mut self, call: &mut Call, caller: u32, at: u64) -> Option<Effects>
        ensures went { IfSome result (WentOn reports.GoOn caller (max at self.old.last) self.old
            self.new call.old call.new) }
        ensures unchanged { IfNone result ((self.new ≡ self.old) × (call.new ≡ call.old)) }
    {
        let at = at.max(self.last);
        let Action::Step(input) = call.operation.action() else {
            return None;
        };
        let Input::Borrow { began } = input else {
            return None;
        };
        if !self.borrow_idle(call, caller, at, began) {
            return None;
        }
        Some(self.stepped(call, at))
    }

    // Takes the step that a call asks for, which is not a borrow's first, if the expected answer is this one, which the call has
    // in its usual course.
    #[inline(always)]
    fn step_by<const IS_END: bool, const IS_BORROW: bool>(
        &mut self,
        call: &mut Call,
        caller: u32,
        at: u64,
        answer: Answer,
    ) -> Option<Effects>
        ensures went { (report : Report) (before : Call)
            → Heard report at self.old self.old before call.old
            → IfSome result (WentOn report caller at self.old self.new before call.new) }
        ensures asked { IfSome result (λ e. is_some (step_at call.old.operation) ≡ true) }
        ensures unchanged { IfNone result ((self.new ≡ self.old) × (call.new ≡ call.old)) }
    {
        let Action::Step(input) = call.operation.action() else {
            return None;
        };
        if is_borrow(input) {
            return None;
        }
        if !self.take_usual::<IS_END, IS_BORROW>(call, caller, at, input, answer) {
            return None;
        }
        Some(self.stepped(call, at))
    }

    /// Goes on with a return that begins, as `advance` with `GoOn`, if its object is checked by its first step.
    ///
    /// Returns `None`, and changes nothing, if it is not, or the call is another one.
    #[inline(always)]
    pub fn begin_checked(&mut self, call: &mut Call, caller: u32, at: u64) -> Option<Effects>
        ensures went { IfSome result (WentOn reports.GoOn caller (max at self.old.last) self.old
            self.new call.old call.new) }
        ensures unchanged { IfNone result ((self.new ≡ self.old) × (call.new ≡ call.old)) }
    {
        let at = at.max(self.last);
        self.step_by::<false, false>(call, caller, at, Answer::Check)
    }

    /// Goes on with a call whose factory has done its work, as `advance` with `Succeeded`, if its next step has this answer,
    /// `Lent` of a borrow or `Parked` of a return, by which it is over.
    ///
    /// Returns `None`, and changes nothing, if that is another answer, or the report does not fit.
    #[inline(always)]
    pub fn end_by<const IS_BORROW: bool>(
        &mut self,
        call: &mut Call,
        caller: u32,
        at: u64,
        answer: Answer,
    ) -> Option<Effects>
        ensures went { IfSome result (WentOn reports.Succeeded caller (max at self.old.last)
            self.old self.new call.old call.new) }
        ensures unchanged { IfNone result ((self.new ≡ self.old) × (call.new ≡ call.old)) }
    {
        let at = at.max(self.last);
        let mut told = *call;
        if !accept_success(&mut told) {
            return None;
        }
        let effects = self.step_by::<true, IS_BORROW>(&mut told, caller, at, answer)?;
        *call = told;
        Some(effects)
    }
}
