//! The place that follows a place of a call.
ghost use Rattle.std.specs.Prelude.{◌≡◌, ◌<◌, ◌≤◌, true, false};
ghost use Rattle.pool_calls.specs.Left.{reports_left};
ghost use Rattle.pool_calls.specs.Rules as rules;
ghost use Rattle.pool_calls.specs.Rules.{IsAt, failed, given_up_at};

use crate::action::End;
use crate::hook_plan::HookPlan;
use crate::kind::Kind;
use crate::stage::{Object, Place, Stage};
use crate::work::Task;
use pool_journal::Outcome;

impl Stage {
    // Whether the call holds no object and has not failed: one that is given up ends.
    #[inline(always)]
    pub(crate) fn is_free(&self) -> bool
        ensures { result ≡ rules.is_free self.now }
    {
        match self {
            Stage::Asks(_) => true,
            Stage::Ends(end) => matches!(end, End::Complete),
            _ => false,
        }
    }
}

impl Place {
    // Whether the call is over.
    #[inline(always)]
    pub(crate) fn is_over(&self) -> bool
        ensures { result ≡ rules.is_over self.now }
    {
        matches!(self, Place::Ended(_))
    }

    // Whether the factory does something.
    pub(crate) fn has_work(&self) -> bool
        ensures { result ≡ rules.has_work self.now }
    {
        matches!(
            self,
            Place::Works(_, _) | Place::Destroys(_, _) | Place::DestroysGone(_)
        )
    }

    // Whether a call that is given up may be here: it is over after three more reports at most.
    #[inline(always)]
    pub(crate) fn ends_soon(&self) -> bool
        ensures soon { result ≡ true → reports_left self.now ≤ 3 }
        ensures late { result ≡ false → 3 < reports_left self.now }
    {
        !matches!(
            self,
            Place::Asks(_) | Place::LacksRoom(_) | Place::Waits | Place::Works(_, _)
        )
    }

    // The place after a task that failed.
    pub(crate) fn failed(self) -> Place
        ensures place { result ≡ failed self }
        ensures goes { (p : HookPlan) (k : Kind) (s : Stage) → IsAt p k self s → IsAt p k result s }
        ensures left { rules.has_work self ≡ true → reports_left result < reports_left self }
        ensures rests { rules.has_work self ≡ true
            → (rules.lacks_room result ≡ false) × (rules.is_waiting result ≡ false) }
    {
        match self {
            Place::Works(task, object) => Place::Reports(task.failure(), object),
            Place::Destroys(outcome, object) => Place::Frees(outcome, object),
            Place::DestroysGone(_) => Place::Ended(End::Gone),
            place => place,
        }
    }

    // The place of a call that is given up.
    pub(crate) fn given_up(self) -> Place
        ensures place { result ≡ given_up_at self }
        ensures goes { (p : HookPlan) (k : Kind) (s : Stage) → IsAt p k self s → IsAt p k result s }
        ensures left { reports_left result ≤ 3 }
        ensures rests { (rules.lacks_room result ≡ false) × (rules.is_waiting result ≡ false) }
    {
        match self {
            Place::Asks(_) | Place::LacksRoom(_) | Place::Waits => Place::Ended(End::Cancelled),
            Place::Works(task, object) => Place::Reports(task.failure(), object),
            place => place,
        }
    }
}

// The place of a call with this object, and the task that comes next; `None` if all are done.
#[inline(always)]
pub(crate) fn work_on(object: Object, task: Option<Task>) -> Place
    ensures { result ≡ rules.work_on object task }
{
    match task {
        Some(task) => Place::Works(task, object),
        None => Place::Reports(Outcome::Good, object),
    }
}
