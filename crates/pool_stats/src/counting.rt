//! Which entries count as removals and failed tests.
ghost use Rattle.std.specs.Prelude.{◌≡◌};
ghost use Rattle.pool_stats.specs.Answers.{is_failing};
ghost use Rattle.pool_journal.specs.Totals.{is_freed, is_reclaimed, is_evicting};

use pool_journal::{Answer, Input, Outcome};

/// Returns whether an answer frees the place of an object that was destroyed or could not be made.
pub(crate) fn is_freeing(answer: Answer) -> bool
    ensures { result ≡ is_freed answer }
{
    matches!(answer, Answer::Freed)
}

/// Returns whether an answer reclaims an abandoned object.
pub(crate) fn is_reclaiming(answer: Answer) -> bool
    ensures { result ≡ is_reclaimed answer }
{
    matches!(answer, Answer::Reclaimed(_))
}

/// Returns whether an answer has an eviction run destroy an idle object, for its idle time or for a failed test.
pub(crate) fn is_evicting(answer: Answer, input: Input) -> bool
    ensures { result ≡ is_evicting answer input }
{
    match (answer, input) {
        (Answer::DestroyIdle(_), Input::EvictNext) => true,
        (Answer::Destroy, Input::Tested { id: _, outcome }) => !matches!(outcome, Outcome::Good),
        _ => false,
    }
}

/// Returns whether an answer is to destroy an object because it failed its test for a borrow.
pub(crate) fn is_failing(answer: Answer, input: Input) -> bool
    ensures { result ≡ is_failing answer input }
{
    match (answer, input) {
        (Answer::Destroy, Input::Ready { id: _, outcome }) => matches!(
            outcome,
            Outcome::TestFailed
        ),
        _ => false,
    }
}
