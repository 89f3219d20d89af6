//! What the host of a call does next, as the codes and numbers that C reads.
ghost use Rattle.std.specs.Prelude.{◌≡◌};
ghost use Rattle.zuphinka.specs.CallCodes.{action_code, action_end, action_number, end_code};
ghost use Rattle.zuphinka.specs.Calling.{IsReadAs, is_quiet, read_of, status_told};

use crate::status::Status;
use pool_calls::{Action, End, Operation, StepFailure};
use pool_host::Effects;

/// What the host does next, as C reads it.
#[repr(C)]
#[derive(Clone, Copy)]
pub struct CallEffects {
    /// The id of the object that the action is for, or that is lent; otherwise 0.
    pub number: u64,
    /// The token of the object.
    pub object: u64,
    /// The ticket of a call that waits; otherwise 0.
    pub ticket: u64,
    /// The time at which the wait of a borrow is over, in milliseconds, if there is one; otherwise 0.
    pub until: u64,
    /// The ticket of the call to wake first, if there is one; otherwise 0.
    pub wake: u64,
    /// The number of objects that a fill made, a removal reclaimed, an eviction run examined, or a clear or a close took
    /// so far; otherwise 0.
    pub count: u64,
    /// The number of places of objects that the call freed so far: of an eviction run the objects that it destroyed.
    pub freed: u64,
    /// The code of the action.
    pub action: u32,
    /// The code of the end, if the call is over; otherwise 0.
    pub end: u32,
    /// Whether the call waits.
    pub has_ticket: bool,
    /// Whether there is a time at which the wait is over.
    pub has_until: bool,
    /// Whether a call is to be woken.
    pub has_wake: bool,
}

#[inline(always)]
fn code_of_action(action: Action) -> u32
    ensures { result ≡ action_code action }
{
    match action {
        Action::Step(_) => 1,
        Action::MakeRoom => 2,
        Action::Make(_) => 3,
        Action::Activate(_) => 4,
        Action::Validate(_) => 5,
        Action::Passivate(_) => 6,
        Action::Destroy(_) => 7,
        Action::Wait => 8,
        Action::Done(_) => 9,
    }
}

#[inline(always)]
fn code_of_end(end: End) -> u32
    ensures { result ≡ end_code end }
{
    match end {
        End::Lent(_) => 1,
        End::Closed => 2,
        End::Exhausted => 3,
        End::TimedOut => 4,
        End::MakeFailed => 5,
        End::CreateTestFailed => 6,
        End::ActivateFailed => 7,
        End::BorrowTestFailed => 8,
        End::PassivateFailed => 9,
        End::Parked => 10,
        End::Destroyed => 11,
        End::Gone => 12,
        End::NotLent => 13,
        End::Noted => 14,
        End::NoPlace => 15,
        End::Complete => 16,
        End::NotTaken(StepFailure::JournalFull) => 17,
        End::NotTaken(StepFailure::OutOfMemory) => 18,
        End::Cancelled => 19,
        End::Contradicted(_) => 20,
    }
}

#[inline(always)]
fn end_of_action(action: Action) -> u32
    ensures { result ≡ action_end action }
{
    match action {
        Action::Done(end) => code_of_end(end),
        _ => 0,
    }
}

#[inline(always)]
fn number_of_action(action: Action) -> u64
    ensures { result ≡ action_number action }
{
    match action {
        Action::Make(id)
        | Action::Activate(id)
        | Action::Validate(id)
        | Action::Passivate(id)
        | Action::Destroy(id)
        | Action::Done(End::Lent(id)) => id,
        _ => 0,
    }
}

impl CallEffects {
    /// Returns whether the object of the call is lent or idle, and no call is to be woken.
    #[inline(always)]
    fn is_quiet(&self) -> bool
        ensures { result ≡ is_quiet self.now }
    {
        (self.end == 1 || self.end == 10) && !self.has_wake
    }

    /// Tells the host, and returns the status. Of a call that is over at once it reads the object and the end alone.
    #[inline(always)]
    pub(crate) fn tell(self, read: &mut CallEffects) -> Status
        ensures status { result ≡ status_told (is_quiet self) }
        ensures read { read.new ≡ read_of (is_quiet self) self read.old }
    {
        if self.is_quiet() {
            read.number = self.number;
            read.object = self.object;
            read.end = self.end;
            Status::AtOnce
        } else {
            *read = self;
            Status::Done
        }
    }

    #[inline(always)]
    pub(crate) fn of(effects: &Effects, operation: &Operation, wake: Option<u64>) -> CallEffects
        ensures { IsReadAs effects.now operation.now wake result }
    {
        let has_ticket = effects.ticket.is_some();
        let has_until = effects.until.is_some();
        let has_wake = wake.is_some();
        let counts = operation.counts();
        CallEffects {
            number: number_of_action(effects.action),
            object: effects.token,
            ticket: effects.ticket.unwrap_or(0),
            until: effects.until.unwrap_or(0),
            wake: wake.unwrap_or(0),
            count: counts.objects,
            freed: counts.freed,
            action: code_of_action(effects.action),
            end: end_of_action(effects.action),
            has_ticket,
            has_until,
            has_wake,
        }
    }
}
