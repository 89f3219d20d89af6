//! The numbers of entries of each counted kind.

use crate::counting::is_failing;
use crate::ended::RemovalTotals;
use pool_journal::{Answer, Input};

/// The number of entries of each kind that is counted.
#[derive(Clone, Copy)]
pub(crate) struct Tally {
    /// The number of times that an object was lent.
    pub borrowed: u64,
    /// The number of times that a lent object was returned.
    pub returned: u64,
    /// The number of objects that were to be made.
    pub created: u64,
    /// The number of objects that were to be destroyed because they failed their test for a borrow.
    pub borrow_test_failed: u64,
    pub ended: RemovalTotals,
}

impl Tally {
    ghost use Rattle.std.specs.Prelude.{◌≡◌, []};
    ghost use Rattle.pool_stats.specs.Tallied.{tally_of, tally_after, MayTally};

    /// Returns the numbers before the first entry: all are 0.
    #[tactic(auto, unfolding(pool_journal::specs::Base::drawn_from))]
    pub(crate) fn none() -> Tally
        ensures { result ≡ tally_of [] }
    {
        Tally {
            borrowed: 0,
            returned: 0,
            created: 0,
            borrow_test_failed: 0,
            ended: RemovalTotals::none(),
        }
    }

    /// Returns the numbers after one more entry, with this input and this answer.
    #[inline(always)]
    pub(crate) fn after(self, input: Input, answer: Answer) -> Tally
        requires { MayTally self }
        ensures { result ≡ tally_after answer input self }
    {
        match answer {
            Answer::Lent => Tally {
                borrowed: self.borrowed + 1,
                ..self
            },
            Answer::Check => Tally {
                returned: self.returned + 1,
                ..self
            },
            Answer::Make(_) => Tally {
                created: self.created + 1,
                ..self
            },
            _ => Tally {
                borrow_test_failed: self.borrow_test_failed + u64::from(is_failing(answer, input)),
                ended: self.ended.after(input, answer),
                ..self
            },
        }
    }
}
