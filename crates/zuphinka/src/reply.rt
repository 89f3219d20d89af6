//! The reply to a step, as the codes and numbers that C reads.
ghost use Rattle.std.specs.Prelude.{◌≡◌};
ghost use Rattle.zuphinka.specs.Codes.{answer_code, answer_number, answer_cause, reply_of};

use pool_journal::{Answer, Cause};

/// The reply to C, after a step.
#[repr(C)]
#[derive(Clone, Copy)]
pub struct Reply {
    /// The id of the object, or the number of objects, if the answer has one; otherwise 0.
    pub number: u64,
    /// The token that is returned, if there is one; otherwise 0.
    pub object: u64,
    /// The code of the answer.
    pub answer: u32,
    /// The code of the cause, if the answer is `Refused`; otherwise 0.
    pub cause: u32,
    /// Whether a token is returned.
    pub has_object: bool,
}

impl Reply {
    pub(crate) fn of(answer: Answer, out: Option<u64>) -> Reply
        ensures { result ≡ reply_of answer out }
    {
        let has_object = out.is_some();
        Reply {
            number: number_of(answer),
            object: out.unwrap_or(0),
            answer: code_of(answer),
            cause: cause_of(answer),
            has_object,
        }
    }
}

fn code_of(answer: Answer) -> u32
    ensures { result ≡ answer_code answer }
{
    match answer {
        Answer::Take(_) => 1,
        Answer::Make(_) => 2,
        Answer::Wait => 3,
        Answer::Exhausted => 4,
        Answer::TimedOut => 5,
        Answer::Lent => 6,
        Answer::Check => 7,
        Answer::Parked => 8,
        Answer::Kept => 9,
        Answer::KeptIdle(_) => 10,
        Answer::Destroy => 11,
        Answer::DestroyIdle(_) => 12,
        Answer::Test(_) => 13,
        Answer::Freed => 14,
        Answer::Gone => 15,
        Answer::Noted => 16,
        Answer::Count(_) => 17,
        Answer::Reclaimed(_) => 18,
        Answer::Nothing => 19,
        Answer::Enough => 20,
        Answer::NoPlace => 21,
        Answer::Refused(_) => 22,
    }
}

fn number_of(answer: Answer) -> u64
    ensures { result ≡ answer_number answer }
{
    match answer {
        Answer::Take(id)
        | Answer::Make(id)
        | Answer::KeptIdle(id)
        | Answer::DestroyIdle(id)
        | Answer::Test(id)
        | Answer::Count(id)
        | Answer::Reclaimed(id) => id,
        _ => 0,
    }
}

fn cause_of(answer: Answer) -> u32
    ensures { result ≡ answer_cause answer }
{
    match answer {
        Answer::Refused(Cause::Closed) => 1,
        Answer::Refused(Cause::NotLent) => 2,
        Answer::Refused(Cause::NotHeld) => 3,
        Answer::Refused(Cause::BadOutcome) => 4,
        _ => 0,
    }
}
