//! The tasks of the factory on an object, before a call reports it.
ghost use Rattle.std.specs.Prelude.{◌≡◌, true, IfSome};
ghost use Rattle.pool_calls.specs.Tasks.{failure_of, work_of, tasks_at, allows, in_order, from_test_new, from_activate, from_test, from_passivate, rest_after};

use crate::hook_plan::HookPlan;
use crate::kind::Kind;
use pool_journal::Outcome;

/// A task of the factory.
#[derive(Clone, Copy)]
pub enum Task {
    Make,
    /// Tests a new object.
    TestNew,
    Activate,
    Test,
    Passivate,
}

impl Task {
    /// Returns the outcome of the work if this task fails.
    pub fn failure(self) -> Outcome
        ensures { result ≡ failure_of self }
    {
        match self {
            Task::Make => Outcome::MakeFailed,
            Task::TestNew => Outcome::CreateTestFailed,
            Task::Activate => Outcome::ActivateFailed,
            Task::Test => Outcome::TestFailed,
            Task::Passivate => Outcome::PassivateFailed,
        }
    }
}

/// Which tasks are done on an object, in this order.
#[derive(Clone, Copy)]
pub struct Work {
    pub make: bool,
    pub test_new: bool,
    pub activate: bool,
    pub test: bool,
    pub passivate: bool,
}

impl HookPlan {
    /// Returns the tasks on an object of a call. An object that the call makes is new.
    #[inline(always)]
    pub fn work(&self, kind: Kind, is_new: bool) -> Work
        ensures { result ≡ work_of self.now kind is_new }
    {
        match kind {
            Kind::Borrow(_) => Work {
                make: is_new,
                test_new: is_new && self.test_on_create,
                activate: self.activates,
                test: self.test_on_borrow,
                passivate: false,
            },
            Kind::Return(_) => Work {
                make: false,
                test_new: false,
                activate: false,
                test: self.test_on_return,
                passivate: self.passivates,
            },
            Kind::Add | Kind::Fill => Work {
                make: true,
                test_new: self.test_on_create,
                activate: false,
                test: false,
                passivate: self.passivates,
            },
            _ => Work {
                make: false,
                test_new: false,
                activate: self.activates,
                test: true,
                passivate: self.passivates,
            },
        }
    }
}

impl Work {
    #[inline(always)]
    fn from_passivate(self) -> Option<Task>
        ensures tasks { tasks_at self result ≡ from_passivate self }
        ensures allowed { IfSome result (λ t. allows self (failure_of t) ≡ true) }
    {
        if self.passivate {
            Some(Task::Passivate)
        } else {
            None
        }
    }

    #[inline(always)]
    fn from_test(self) -> Option<Task>
        ensures tasks { tasks_at self result ≡ from_test self }
        ensures allowed { IfSome result (λ t. allows self (failure_of t) ≡ true) }
    {
        if self.test {
            Some(Task::Test)
        } else {
            self.from_passivate()
        }
    }

    #[inline(always)]
    fn from_activate(self) -> Option<Task>
        ensures tasks { tasks_at self result ≡ from_activate self }
        ensures allowed { IfSome result (λ t. allows self (failure_of t) ≡ true) }
    {
        if self.activate {
            Some(Task::Activate)
        } else {
            self.from_test()
        }
    }

    #[inline(always)]
    fn from_test_new(self) -> Option<Task>
        ensures tasks { tasks_at self result ≡ from_test_new self }
        ensures allowed { IfSome result (λ t. allows self (failure_of t) ≡ true) }
    {
        if self.test_new {
            Some(Task::TestNew)
        } else {
            self.from_activate()
        }
    }

    /// Returns the first task; `None` if there is none.
    #[inline(always)]
    pub fn first(self) -> Option<Task>
        ensures tasks { tasks_at self result ≡ in_order self }
        ensures allowed { IfSome result (λ t. allows self (failure_of t) ≡ true) }
    {
        if self.make {
            Some(Task::Make)
        } else {
            self.from_test_new()
        }
    }

    /// Returns the task after this one; `None` if it is the last.
    #[inline(always)]
    pub fn after(self, done: Task) -> Option<Task>
        ensures tasks { tasks_at self result ≡ rest_after self done }
        ensures allowed { IfSome result (λ t. allows self (failure_of t) ≡ true) }
    {
        match done {
            Task::Make => self.from_test_new(),
            Task::TestNew => self.from_activate(),
            Task::Activate => self.from_test(),
            Task::Test => self.from_passivate(),
            Task::Passivate => None,
        }
    }
}
