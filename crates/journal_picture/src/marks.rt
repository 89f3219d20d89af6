//! The entries that are marked.
ghost use Rattle.std.specs.Prelude.{◌≡◌};
ghost use Rattle.pool_journal.specs.Totals.{is_evicting};

use pool_journal::{Answer, Entry, Input, Outcome};

/// The number of marked entries of each kind.
#[derive(Clone, Copy)]
pub(crate) struct Marks {
    /// Those that were refused.
    pub(crate) refused: u64,
    /// Borrows that ended without an object: exhausted or timed out.
    pub(crate) without: u64,
    /// Evictions: an idle object is destroyed by an eviction run, or does not pass its idle test.
    pub(crate) evicted: u64,
    /// Abandoned objects that were reclaimed.
    pub(crate) reclaimed: u64,
    /// Objects that did not pass a test, and are destroyed.
    pub(crate) failed: u64,
}

impl Marks {
    pub(crate) fn none() -> Marks {
        Marks {
            refused: 0,
            without: 0,
            evicted: 0,
            reclaimed: 0,
            failed: 0,
        }
    }

    /// Returns the marks of one entry.
    pub(crate) fn of(entry: &Entry) -> Marks {
        let answer = entry.answer;
        Marks {
            refused: u64::from(matches!(answer, Answer::Refused(_))),
            without: u64::from(answer == Answer::Exhausted || answer == Answer::TimedOut),
            evicted: u64::from(is_evicting(entry)),
            reclaimed: u64::from(matches!(answer, Answer::Reclaimed(_))),
            failed: u64::from(is_failed_test(entry)),
        }
    }

    /// Returns the marks of two parts together.
    pub(crate) fn and(self, other: Marks) -> Marks {
        Marks {
            refused: self.refused.saturating_add(other.refused),
            without: self.without.saturating_add(other.without),
            evicted: self.evicted.saturating_add(other.evicted),
            reclaimed: self.reclaimed.saturating_add(other.reclaimed),
            failed: self.failed.saturating_add(other.failed),
        }
    }
}

/// Returns whether an entry evicts an object.
pub(crate) fn is_evicting(entry: &Entry) -> bool
    ensures { result ≡ is_evicting entry.now.answer entry.now.input }
{
    match (entry.answer, entry.input) {
        (Answer::DestroyIdle(_), Input::EvictNext) => true,
        (Answer::Destroy, Input::Tested { id: _, outcome }) => !matches!(outcome, Outcome::Good),
        _ => false,
    }
}

/// Returns whether an object did not pass a test, and is destroyed.
fn is_failed_test(entry: &Entry) -> bool {
    if entry.answer != Answer::Destroy {
        return false;
    }
    match entry.input {
        Input::Ready { id: _, outcome }
        | Input::Park { id: _, outcome }
        | Input::Added { id: _, outcome }
        | Input::Tested { id: _, outcome } => {
            outcome == Outcome::TestFailed || outcome == Outcome::CreateTestFailed
        }
        _ => false,
    }
}
