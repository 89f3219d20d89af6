//! A request for a step, as C passes it, and the input that its codes name.
ghost use Rattle.std.specs.Prelude.{◌≡◌};
ghost use Rattle.zuphinka.specs.Codes.{outcome_at, plain_at, numbered_at, reported_at, input_of};

use pool_journal::{Input, Outcome, When};

/// A request from C to a pool. The input determines which fields are read.
#[repr(C)]
#[derive(Clone, Copy)]
pub struct Request {
    /// The time, in milliseconds.
    pub at: u64,
    /// The object's id, or the time at which the borrow began, in milliseconds.
    pub number: u64,
    /// The object's token, if the input carries it.
    pub object: u64,
    /// The number of the caller.
    pub caller: u32,
    /// The code of the input.
    pub input: u32,
    /// The code of the outcome of work on the object.
    pub outcome: u32,
}

fn outcome_at(code: u32) -> Option<Outcome>
    ensures { result ≡ outcome_at code }
{
    match code {
        1 => Some(Outcome::Good),
        2 => Some(Outcome::MakeFailed),
        3 => Some(Outcome::CreateTestFailed),
        4 => Some(Outcome::ActivateFailed),
        5 => Some(Outcome::TestFailed),
        6 => Some(Outcome::PassivateFailed),
        _ => None,
    }
}

// The inputs without a number or an outcome.
fn plain_at(code: u32) -> Option<Input>
    ensures { result ≡ plain_at code }
{
    match code {
        7 => Some(Input::Add),
        8 => Some(Input::Fill),
        10 => Some(Input::Evict),
        11 => Some(Input::EvictNext),
        13 => Some(Input::Reclaim { on: When::Borrow }),
        14 => Some(Input::Reclaim { on: When::Maintain }),
        15 => Some(Input::ReclaimNext),
        16 => Some(Input::Clear),
        17 => Some(Input::ClearNext),
        19 => Some(Input::Close),
        _ => None,
    }
}

// The inputs with a number.
fn numbered_at(code: u32, number: u64) -> Option<Input>
    ensures { result ≡ numbered_at code number }
{
    match code {
        1 => Some(Input::Borrow { began: number }),
        3 => Some(Input::GiveBack { id: number }),
        5 => Some(Input::Invalidate { id: number }),
        6 => Some(Input::Use { id: number }),
        18 => Some(Input::Destroyed { id: number }),
        _ => None,
    }
}

// The inputs that report the outcome of work on an object.
fn reported_at(code: u32, id: u64, outcome: Outcome) -> Option<Input>
    ensures { result ≡ reported_at code id outcome }
{
    match code {
        2 => Some(Input::Ready { id, outcome }),
        4 => Some(Input::Park { id, outcome }),
        9 => Some(Input::Added { id, outcome }),
        12 => Some(Input::Tested { id, outcome }),
        _ => None,
    }
}

impl Request {
    /// Returns the input of the request, if its codes are valid.
    pub(crate) fn input(&self) -> Option<Input>
        ensures { result ≡ input_of self.now }
    {
        if let Some(input) = plain_at(self.input) {
            return Some(input);
        }
        if let Some(input) = numbered_at(self.input, self.number) {
            return Some(input);
        }
        match outcome_at(self.outcome) {
            Some(outcome) => reported_at(self.input, self.number, outcome),
            None => None,
        }
    }
}
