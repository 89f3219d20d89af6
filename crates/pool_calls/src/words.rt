//! The parts of a call in progress as plain numbers.
ghost use Rattle.std.specs.Prelude.{◌≡◌, false, Some};
ghost use Rattle.pool_calls.specs.Rules.{is_over};
ghost use Rattle.pool_calls.specs.Words.{is_set, kind_in, object_in, outcome_at, place_in, plan_in, request_in, task_at};

use crate::hook_plan::HookPlan;
use crate::kind::Kind;
use crate::stage::{Object, Place, Request};
use crate::work::Task;
use pool_journal::Outcome;

/// The plan of a call, with 0 for `false`.
#[repr(C)]
#[derive(Clone, Copy)]
pub struct HookPlanWords {
    remove_abandoned_on_borrow: u8,
    test_on_create: u8,
    test_on_borrow: u8,
    test_on_return: u8,
    activates: u8,
    passivates: u8,
}

/// The place of a call in progress. The code determines which fields are read.
#[derive(Clone, Copy)]
pub(crate) struct PlaceWords {
    // The object, with 0 for one that is not new.
    pub id: u64,
    pub left: u64,
    pub is_new: u8,
    pub code: u32,
    // The code of the request, the task or the outcome.
    pub detail: u16,
}

/// Returns a flag: 0 for `false`.
#[inline(always)]
pub(crate) fn flag(is: bool) -> u8
    ensures { is_set result ≡ is }
{
    u8::from(is)
}

/// Returns whether a flag is set.
#[inline(always)]
pub(crate) fn is_set(flag: u8) -> bool
    ensures { result ≡ is_set flag }
{
    flag != 0
}

impl HookPlanWords {
    #[inline(always)]
    pub(crate) fn of(plan: &HookPlan) -> HookPlanWords
        ensures { plan_in result ≡ plan.now }
    {
        HookPlanWords {
            remove_abandoned_on_borrow: flag(plan.remove_abandoned_on_borrow),
            test_on_create: flag(plan.test_on_create),
            test_on_borrow: flag(plan.test_on_borrow),
            test_on_return: flag(plan.test_on_return),
            activates: flag(plan.activates),
            passivates: flag(plan.passivates),
        }
    }

    #[inline(always)]
    pub(crate) fn plan(&self) -> HookPlan
        ensures { result ≡ plan_in self.now }
    {
        HookPlan {
            remove_abandoned_on_borrow: is_set(self.remove_abandoned_on_borrow),
            test_on_create: is_set(self.test_on_create),
            test_on_borrow: is_set(self.test_on_borrow),
            test_on_return: is_set(self.test_on_return),
            activates: is_set(self.activates),
            passivates: is_set(self.passivates),
        }
    }
}

// The code of a kind, and its number.
#[inline(always)]
pub(crate) fn words_of_kind(kind: Kind) -> (u16, u64)
    ensures { kind_in result.0 result.1 ≡ Some kind }
{
    match kind {
        Kind::Borrow(began) => (1, began),
        Kind::Return(id) => (2, id),
        Kind::Invalidate(id) => (3, id),
        Kind::Detach(id) => (4, id),
        Kind::Touch(id) => (5, id),
        Kind::Add => (6, 0),
        Kind::Fill => (7, 0),
        Kind::Evict => (8, 0),
        Kind::Reclaim => (9, 0),
        Kind::Clear => (10, 0),
        Kind::Close => (11, 0),
    }
}

// The kind of a code and a number. Most calls borrow or return, so their codes are looked at first.
#[inline(always)]
pub(crate) fn kind_in(code: u16, number: u64) -> Option<Kind>
    ensures { result ≡ kind_in code number }
{
    if code < 3 {
        return match code {
            1 => Some(Kind::Borrow(number)),
            2 => Some(Kind::Return(number)),
            _ => None,
        };
    }
    match code {
        3 => Some(Kind::Invalidate(number)),
        4 => Some(Kind::Detach(number)),
        5 => Some(Kind::Touch(number)),
        6 => Some(Kind::Add),
        7 => Some(Kind::Fill),
        8 => Some(Kind::Evict),
        9 => Some(Kind::Reclaim),
        10 => Some(Kind::Clear),
        11 => Some(Kind::Close),
        _ => None,
    }
}

#[inline(always)]
fn code_of_task(task: Task) -> u16
    ensures { task_at result ≡ Some task }
{
    match task {
        Task::Make => 1,
        Task::TestNew => 2,
        Task::Activate => 3,
        Task::Test => 4,
        Task::Passivate => 5,
    }
}

#[inline(always)]
fn task_at(code: u16) -> Option<Task>
    ensures { result ≡ task_at code }
{
    match code {
        1 => Some(Task::Make),
        2 => Some(Task::TestNew),
        3 => Some(Task::Activate),
        4 => Some(Task::Test),
        5 => Some(Task::Passivate),
        _ => None,
    }
}

#[inline(always)]
fn code_of_outcome(outcome: Outcome) -> u16
    ensures { outcome_at result ≡ Some outcome }
{
    match outcome {
        Outcome::Good => 1,
        Outcome::MakeFailed => 2,
        Outcome::CreateTestFailed => 3,
        Outcome::ActivateFailed => 4,
        Outcome::TestFailed => 5,
        Outcome::PassivateFailed => 6,
    }
}

#[inline(always)]
fn outcome_at(code: u16) -> Option<Outcome>
    ensures { result ≡ outcome_at code }
{
    match code {
        1 => Some(Outcome::Good),
        2 => Some(Outcome::MakeFailed),
        3 => Some(Outcome::CreateTestFailed),
        4 => Some(Outcome::ActivateFailed),
        5 => Some(Outcome::TestFailed),
        6 => Some(Outcome::PassivateFailed),
        _ => None,
    }
}

impl PlaceWords {
    // The words of a place with this object.
    #[inline(always)]
    fn at(code: u32, detail: u16, object: Object) -> PlaceWords
        ensures code { result.code ≡ code }
        ensures detail { result.detail ≡ detail }
        ensures object { object_in result ≡ object }
        ensures numbers { (result.id ≡ object.id) × (result.left ≡ object.left) }
    {
        PlaceWords {
            id: object.id,
            left: object.left,
            is_new: flag(object.is_new),
            code,
            detail,
        }
    }

    // The words of a place with a request.
    #[inline(always)]
    fn asking(code: u32, request: Request) -> PlaceWords
        ensures code { result.code ≡ code }
        ensures request { request_in result.detail result.left ≡ Some request }
    {
        let (detail, left) = match request {
            Request::Begin => (1, 0),
            Request::Ask => (2, 0),
            Request::Next(left) => (3, left),
        };
        let (id, is_new) = (0, false);
        PlaceWords::at(code, detail, Object { id, is_new, left })
    }

    // The words of a place that is not over.
    #[inline(always)]
    pub(crate) fn of(place: Place) -> PlaceWords
        ensures { is_over place ≡ false → place_in result ≡ Some place }
    {
        let (id, is_new, left) = (0, false, 0);
        match place {
            Place::Works(task, object) => PlaceWords::at(1, code_of_task(task), object),
            Place::Waits => PlaceWords::at(2, 0, Object { id, is_new, left }),
            Place::Asks(request) => PlaceWords::asking(3, request),
            Place::LacksRoom(request) => PlaceWords::asking(4, request),
            Place::Reports(outcome, object) => PlaceWords::at(5, code_of_outcome(outcome), object),
            Place::Destroys(outcome, object) => PlaceWords::at(6, code_of_outcome(outcome), object),
            Place::Frees(outcome, object) => PlaceWords::at(7, code_of_outcome(outcome), object),
            Place::DestroysGone(id) => PlaceWords::at(8, 0, Object { id, is_new, left }),
            Place::Ended(_) => PlaceWords::at(0, 0, Object { id, is_new, left }),
        }
    }

    #[inline(always)]
    fn request(&self) -> Option<Request>
        ensures { result ≡ request_in self.now.detail self.now.left }
    {
        match self.detail {
            1 => Some(Request::Begin),
            2 => Some(Request::Ask),
            3 => Some(Request::Next(self.left)),
            _ => None,
        }
    }

    #[inline(always)]
    fn object(&self) -> Object
        ensures { result ≡ object_in self.now }
    {
        Object {
            id: self.id,
            is_new: is_set(self.is_new),
            left: self.left,
        }
    }

    // The place, if it is one of a call in progress. Of most calls the factory does a task, so that code is looked at first.
    #[inline(always)]
    pub(crate) fn place(&self) -> Option<Place>
        ensures { result ≡ place_in self.now }
    {
        if self.code < 2 {
            return match self.code {
                1 => Some(Place::Works(task_at(self.detail)?, self.object())),
                _ => None,
            };
        }
        match self.code {
            2 => Some(Place::Waits),
            3 => self.request().map(Place::Asks),
            4 => self.request().map(Place::LacksRoom),
            5 => Some(Place::Reports(outcome_at(self.detail)?, self.object())),
            6 => Some(Place::Destroys(outcome_at(self.detail)?, self.object())),
            7 => Some(Place::Frees(outcome_at(self.detail)?, self.object())),
            8 => Some(Place::DestroysGone(self.id)),
            _ => None,
        }
    }
}
