//! Searches the abandoned objects, and the earliest time at which a lent object was last used.
ghost use Rattle.std.specs.Prelude.{◌≡◌, ◌≤◌, true, count_by, find};
ghost use Rattle.std.specs.Option.{option_map};
ghost use Rattle.pool_places.specs.Overdue.{is_overdue, is_lent, IsBound};
ghost use Rattle.pool_places.specs.PlacesModel.{records_in, PlacesInvariant};
ghost use Rattle.pool_places.specs.Stored.{objects_of, IndexInvariant};

use crate::phase_tests::is_lent_phase;
use pool_journal::Record;
use pool_slots::Slots;
use sorted_index::SortedIndex;

// Whether an object is lent and, at time `at`, was not used for `timeout` (both in milliseconds).
fn is_overdue_record(known: Record, at: u64, timeout: u64) -> bool
    ensures { result ≡ is_overdue at timeout known }
{
    is_lent_phase(known.phase) && at.saturating_sub(known.used) >= timeout
}

/// Returns the least id of an abandoned object, if there is one.
pub(crate) fn first_overdue<T>(
    slots: &Slots<T>,
    index: &SortedIndex,
    at: u64,
    timeout: u64,
) -> Option<u64>
    requires { IndexInvariant slots.now index.now.pairs }
    ensures { result ≡ option_map (λ r. r.id)
        (find (is_overdue at timeout) (records_in (objects_of slots.now index.now.pairs))) }
{
    for pair in index.walk() {
        let known = slots.known(pair.key);
        if is_overdue_record(known, at, timeout) {
            return Some(known.id);
        }
    }
    None
}

/// Returns the number of abandoned objects.
pub(crate) fn overdue_count<T>(slots: &Slots<T>, index: &SortedIndex, at: u64, timeout: u64) -> u64
    requires tied { IndexInvariant slots.now index.now.pairs }
    requires well_formed { PlacesInvariant (objects_of slots.now index.now.pairs) }
    ensures { result ≡ count_by (is_overdue at timeout)
        (records_in (objects_of slots.now index.now.pairs)) }
{
    let mut count = 0;
    for pair in index.walk() {
        if is_overdue_record(slots.known(pair.key), at, timeout) {
            count += 1;
        }
    }
    count
}

/// Returns the earlier of two times.
pub(crate) fn earlier(one: u64, other: u64) -> u64
    ensures one { result ≤ one }
    ensures other { result ≤ other }
{
    one.min(other)
}

/// Returns the time at which an object was last used, if it is lent, and otherwise `u64::MAX`.
pub(crate) fn last_use(known: Record) -> u64
    ensures { is_lent known.phase ≡ true → result ≡ known.used }
{
    if is_lent_phase(known.phase) {
        known.used
    } else {
        u64::MAX
    }
}

/// Returns the earliest time at which a lent object was last used, and `u64::MAX` if none is lent.
pub(crate) fn least_use<T>(slots: &Slots<T>, index: &SortedIndex) -> u64
    requires { IndexInvariant slots.now index.now.pairs }
    ensures { IsBound result (records_in (objects_of slots.now index.now.pairs)) }
{
    let mut least = u64::MAX;
    for pair in index.walk() {
        let used = last_use(slots.known(pair.key));
        least = earlier(least, used);
    }
    least
}
