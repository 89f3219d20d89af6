//! The kinds of call, and the steps that each asks for.
ghost use Rattle.std.specs.Prelude.{◌≡◌, Some};
ghost use Rattle.pool_calls.specs.Steps.{ask_of, next_of, report_of, destroys, is_borrow, is_counted};

use pool_journal::{Answer, Input, Outcome, When};

/// A kind of call, with the object that it is for.
#[derive(Clone, Copy)]
pub enum Kind {
    /// Lends an object to a caller that began to ask at this time, in milliseconds.
    Borrow(u64),
    Return(u64),
    /// Destroys a lent object.
    Invalidate(u64),
    /// Leaves a lent object to its holder, and frees its place.
    Detach(u64),
    /// Notes the use of a lent object.
    Touch(u64),
    /// Adds one idle object.
    Add,
    /// Adds idle objects until the pool has enough.
    Fill,
    /// Examines idle objects.
    Evict,
    /// Reclaims abandoned objects, for maintenance.
    Reclaim,
    /// Destroys the idle objects.
    Clear,
    /// Closes the pool, and destroys the idle objects.
    Close,
}

impl Kind {
    /// Returns the step by which a call asks the pool.
    #[inline(always)]
    pub fn ask(self) -> Input
        ensures { result ≡ ask_of self }
    {
        match self {
            Kind::Borrow(began) => Input::Borrow { began },
            Kind::Return(id) => Input::GiveBack { id },
            Kind::Invalidate(id) | Kind::Detach(id) => Input::Invalidate { id },
            Kind::Touch(id) => Input::Use { id },
            Kind::Add => Input::Add,
            Kind::Fill => Input::Fill,
            Kind::Evict => Input::Evict,
            Kind::Reclaim => Input::Reclaim { on: When::Maintain },
            Kind::Clear => Input::Clear,
            Kind::Close => Input::Close,
        }
    }

    /// Returns the step for the next of the objects that the pool counted.
    #[inline(always)]
    pub fn next(self) -> Input
        ensures { result ≡ next_of self }
    {
        match self {
            Kind::Borrow(_) | Kind::Reclaim => Input::ReclaimNext,
            Kind::Evict => Input::EvictNext,
            _ => Input::ClearNext,
        }
    }

    /// Returns the step that reports the outcome of the factory's tasks on an object.
    #[inline(always)]
    pub fn report(self, id: u64, outcome: Outcome) -> Input
        ensures { result ≡ report_of self id outcome }
    {
        match self {
            Kind::Borrow(_) => Input::Ready { id, outcome },
            Kind::Return(_) => Input::Park { id, outcome },
            Kind::Add | Kind::Fill => Input::Added { id, outcome },
            _ => Input::Tested { id, outcome },
        }
    }

    /// Returns whether the factory destroys an object that the call removes.
    #[inline(always)]
    pub fn destroys(self) -> bool
        ensures { result ≡ destroys self }
    {
        !matches!(self, Kind::Detach(_))
    }

    /// Returns whether it is a borrow.
    #[inline(always)]
    pub fn is_borrow(self) -> bool
        ensures { result ≡ is_borrow self }
    {
        matches!(self, Kind::Borrow(_))
    }

    /// Returns whether a call of this kind counts an object at this answer.
    #[inline(always)]
    pub fn counts(self, answer: Answer) -> bool
        ensures { result ≡ is_counted self answer }
    {
        match self {
            Kind::Fill => matches!(answer, Answer::Parked),
            Kind::Reclaim => matches!(answer, Answer::Reclaimed(_)),
            Kind::Clear | Kind::Close => matches!(answer, Answer::DestroyIdle(_)),
            Kind::Evict => matches!(
                answer,
                Answer::KeptIdle(_) | Answer::Test(_) | Answer::DestroyIdle(_)
            ),
            _ => false,
        }
    }
}
