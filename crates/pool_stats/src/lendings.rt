//! The duration of a loan, by the times at which loans began.
ghost use Rattle.std.specs.Prelude.{◌≡◌, ℕ, if◌then◌else◌, unwrap_or, Some, OnErr, OnOk};
ghost use Rattle.std.specs.BTreeMap.{get};
ghost use Rattle.std.specs.Option.{option_map};
ghost use Rattle.std.specs.Ordering.{nat_cmp};
ghost use Rattle.pool_journal.specs.Entries.{is_of};
ghost use Rattle.pool_stats.specs.Lendings.{begun_by, ended_by, time_since};

use pool_journal::{Answer, Entry, Input};
use std::alloc::AllocError;
use std::collections::BTreeMap;

/// Returns the object whose loan an entry begins.
fn begun_by(entry: &Entry) -> Option<u64>
    ensures { result ≡ begun_by entry.now.answer entry.now.input }
{
    match (entry.answer, entry.input) {
        (Answer::Lent, Input::Ready { id, outcome: _ }) => Some(id),
        _ => None,
    }
}

/// Returns the object whose loan an entry ends.
fn ended_by(entry: &Entry) -> Option<u64>
    ensures { result ≡ ended_by entry.now.answer entry.now.input }
{
    match (entry.answer, entry.input) {
        (Answer::Check, Input::GiveBack { id }) => Some(id),
        (Answer::Destroy, Input::Invalidate { id }) => Some(id),
        (Answer::Reclaimed(id), _) => Some(id),
        _ => None,
    }
}

/// Returns the time from `moment` to `at`, and 0 if `moment` is `None` or later than `at`.
fn time_since(moment: Option<u64>, at: u64) -> u64
    ensures { result ≡ time_since moment at }
{
    match moment {
        Some(moment) => at.saturating_sub(moment),
        None => 0,
    }
}

/// Returns the duration of the loan that an entry ends, by the times at which loans began, and 0 if it ends none.
pub(crate) fn time_ended(begun: &BTreeMap<u64, u64>, entry: &Entry) -> u64
    ensures { result ≡ unwrap_or (option_map
        (λ i. time_since (get nat_cmp begun.now i) entry.now.at)
        (ended_by entry.now.answer entry.now.input)) 0 }
{
    match ended_by(entry) {
        Some(id) => time_since(begun.get(&id).copied(), entry.at),
        None => 0,
    }
}

/// Records the time at which a loan began, if the entry begins one.
///
/// # Errors
///
/// An allocation failed. The times are unchanged.
pub(crate) fn note_begun(begun: &mut BTreeMap<u64, u64>, entry: &Entry) -> Result<(), AllocError>
    ensures noted { OnOk result ((i : ℕ) → get nat_cmp begun.new i
        ≡ (if is_of i (begun_by entry.now.answer entry.now.input) then Some entry.now.at
        else get nat_cmp begun.old i)) }
    ensures unchanged_on_error { OnErr result (begun.new.entries ≡ begun.old.entries) }
{
    if let Some(id) = begun_by(entry) {
        begun.insert(id, entry.at)?;
    }
    Ok(())
}
