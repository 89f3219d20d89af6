//! A call in progress as plain numbers, for a host that keeps it.
ghost use Rattle.std.specs.Prelude.{◌≡◌, not, IfSome, IfNone};
ghost use Rattle.std.specs.Option.{is_some};
ghost use Rattle.pool_calls.specs.Operations.{is_over};
ghost use Rattle.pool_calls.specs.Words.{Reads, ReadsNone, place_of};

use super::Operation;
use crate::call_counts::CallCounts;
use crate::stage::Place;
use crate::words::{HookPlanWords, PlaceWords, flag, is_set, kind_in, words_of_kind};
use pool_journal::Answer;

/// A call in progress as plain numbers.
#[repr(C)]
#[derive(Clone, Copy)]
pub struct OperationWords {
    // The object of the place.
    id: u64,
    left: u64,
    counts: CallCounts,
    // The time or the id of the kind; 0 if it has none.
    number: u64,
    plan: HookPlanWords,
    given_up: u8,
    is_new: u8,
    // The codes of the place, of its request, task or outcome, and of the kind.
    place: u32,
    detail: u16,
    kind: u16,
}

impl Operation {
    /// Returns the call as plain numbers; `None` if it is over.
    #[inline(always)]
    pub fn words(&self) -> Option<OperationWords>
        ensures reads { IfSome result (λ w. Reads w self.now) }
        ensures over { is_some result ≡ not (is_over self.now) }
    {
        if self.place.is_over() {
            return None;
        }
        let place = PlaceWords::of(self.place);
        let (kind, number) = words_of_kind(self.kind);
        Some(OperationWords {
            id: place.id,
            left: place.left,
            counts: self.counts,
            number,
            plan: HookPlanWords::of(&self.plan),
            given_up: flag(self.given_up),
            is_new: place.is_new,
            place: place.code,
            detail: place.detail,
            kind,
        })
    }
}

impl OperationWords {
    /// Returns the answer by which a borrow or a return ends as a rule, if the factory works for it. It is a hint: the numbers
    /// may be no call's.
    #[inline(always)]
    pub fn usual_end(&self) -> Option<Answer> {
        match (self.place, self.kind) {
            (1, 1) => Some(Answer::Lent),
            (1, 2) => Some(Answer::Parked),
            _ => None,
        }
    }

    #[inline(always)]
    fn place(&self) -> PlaceWords
        ensures { result ≡ place_of self.now }
    {
        PlaceWords {
            id: self.id,
            left: self.left,
            is_new: self.is_new,
            code: self.place,
            detail: self.detail,
        }
    }

    /// Returns the call that has these numbers, if there is one.
    #[inline(always)]
    pub fn operation(&self) -> Option<Operation>
        ensures reads { IfSome result (λ op. Reads self.now op) }
        ensures none { IfNone result (ReadsNone self.now) }
    {
        let kind = kind_in(self.kind, self.number)?;
        let place = self.place().place()?;
        let given_up = is_set(self.given_up);
        if given_up && !place.ends_soon() {
            return None;
        }
        if matches!(place, Place::Waits) && !kind.is_borrow() {
            return None;
        }
        Some(Operation {
            kind,
            plan: self.plan.plan(),
            given_up,
            counts: self.counts,
            place,
        })
    }
}
