//! Takes the step that a line asks for, on a pool in which the value of each object is its id.
ghost use Rattle.std.specs.Prelude.{◌≡◌, ◌+◌, is_some, OnErr, MatchResult};
ghost use Rattle.pool_journal.specs.Text.{IsRequest};
ghost use Rattle.pool_journal.specs.Carrying.{carries};
ghost use Rattle.pool_engines.specs.Made.{IsProducedFrom};
ghost use Rattle.pool_engines.specs.Step.{Answers, Refuses, fault_at, with_answer};
ghost use Rattle.pool_engines.specs.Engine.{IsOwnFault};
ghost use Rattle.pool_core.specs.Stepper.{ForEveryHistory, pool_of};

use crate::engine_fault::EngineFault;
use pool_core::{StepFault, Stepper};
use pool_journal::{Answer, Input, Outcome, Request};

/// Returns the number of the next entry's line.
pub(crate) fn line_number(stepper: &Stepper<u64>) -> u64
    ensures { result ≡ stepper.now.taken + 1 }
{
    stepper.taken() + 1
}

/// Returns the value that an input passes in: that of each object is its id.
fn value_of(input: &Input) -> Option<u64>
    ensures { is_some result ≡ carries input.now }
{
    match input {
        Input::Park { id, outcome }
        | Input::Added { id, outcome }
        | Input::Tested { id, outcome } => match outcome {
            Outcome::Good => Some(*id),
            _ => None,
        },
        _ => None,
    }
}

/// Why a step is not taken.
#[derive(Clone, Copy)]
pub(crate) enum Refusal {
    /// The journal has no room for its entry.
    Full,
    OutOfMemory,
}

impl Refusal {
    /// Returns the error of line `number`, which asked for the step.
    pub(crate) fn at(self, number: u64) -> EngineFault
        ensures fault { result ≡ fault_at number self }
        ensures own { IsOwnFault result }
    {
        match self {
            Refusal::Full => EngineFault::Full(number),
            Refusal::OutOfMemory => EngineFault::OutOfMemory,
        }
    }
}

/// Takes the step that a request asks for, and returns its answer. On an error the pool is unchanged.
#[inline(always)]
pub(crate) fn step(stepper: &mut Stepper<u64>, request: &Request) -> Result<Answer, Refusal>
    requires asked { IsRequest request.now }
    ensures stepped { ForEveryHistory stepper.old
        (λ b J. IsProducedFrom stepper.old.settings b J → MatchResult result
        (λ answer. Answers request.now b J stepper.old stepper.new (with_answer request.now answer))
        (Refuses (pool_of stepper.old b J) request.now)) }
    ensures unchanged_on_error { OnErr result (stepper.new ≡ stepper.old) }
{
    let Request { caller, at, input } = *request;
    match stepper.step(caller, at, input, value_of(&input)) {
        Ok((entry, _)) => Ok(entry.answer),
        Err(StepFault::JournalFull(_)) => Err(Refusal::Full),
        Err(StepFault::OutOfMemory(_)) => Err(Refusal::OutOfMemory),
    }
}
