//! When lent objects were last used: the earliest of these times, without a walk over all objects for each removal.
ghost use Rattle.std.specs.Prelude.{◌≡◌, ◌≤◌, ◌<◌, ◌^◌, ◌-◌, List, true, false, length, OnOk};
ghost use Rattle.std.specs.List.{Contains};
ghost use Rattle.pool_journal.specs.declared.record.Record.{Record as Known};
ghost use Rattle.pool_places.specs.LastUses.{AreLastUses, HasAll, IsUnused, IsListed, IsAscending, use_of};
ghost use Rattle.pool_places.specs.Overdue.{is_lent, IsBound};
ghost use Rattle.pool_places.specs.PlacesModel.{records_in, PlacesInvariant};
ghost use Rattle.pool_places.specs.Stored.{objects_of, IndexInvariant};

use crate::overdue::{earlier, last_use, least_use};
use crate::phase_tests::is_lent_phase;
use pool_journal::Record;
use pool_slots::Slots;
use sorted_index::SortedIndex;
use std::alloc::AllocError;

/// A lent object, and the time at which it was last used, in milliseconds.
#[derive(Clone, Copy)]
pub(crate) struct LastUse {
    pub id: u64,
    pub at: u64,
}

/// When lent objects were last used. Some are listed, in ascending order of the time. If one of these is used again or
/// returned, the list has its earlier use until it is passed.
#[derive(Drop)]
pub(crate) struct LastUses {
    // A time before which no lent object was last used, except by a use that is listed and not passed.
    pub recent: u64,
    pub order: Vec<LastUse>,
    // The number of listed uses that are passed.
    pub passed: usize,
}

// Whether it may be the last use of a lent object.
fn is_current<T>(slots: &Slots<T>, index: &SortedIndex, one: LastUse) -> bool
    requires tied { IndexInvariant slots.now index.now.pairs }
    requires well_formed { PlacesInvariant (objects_of slots.now index.now.pairs) }
    ensures { result ≡ false → IsUnused one (records_in (objects_of slots.now index.now.pairs)) }
{
    match index.find(one.id) {
        Some(key) => last_use(slots.known(key)) == one.at,
        None => false,
    }
}

/// Returns how many listed uses are passed, if those are that are `timeout` ago at time `at` and after which their
/// object was used again or returned (both in milliseconds).
pub(crate) fn passed_at<T>(
    slots: &Slots<T>,
    index: &SortedIndex,
    uses: &LastUses,
    at: u64,
    timeout: u64,
) -> usize
    requires tied { IndexInvariant slots.now index.now.pairs }
    requires well_formed { PlacesInvariant (objects_of slots.now index.now.pairs) }
    requires uses { AreLastUses uses.now (records_in (objects_of slots.now index.now.pairs)) }
    ensures { AreLastUses (record uses.now { passed = result })
        (records_in (objects_of slots.now index.now.pairs)) }
{
    for position in uses.passed..uses.order.len() {
        let one = uses.order[position];
        if at.saturating_sub(one.at) < timeout || is_current(slots, index, one) {
            return position;
        }
    }
    uses.order.len()
}

/// Returns a time before which no lent object was last used, if this number of listed uses is passed.
pub(crate) fn earliest_use(uses: &LastUses, passed: usize) -> u64
    ensures { (rs : List Known) → AreLastUses (record uses.now { passed = passed }) rs
        → IsBound result rs }
{
    if passed >= uses.order.len() {
        return uses.recent;
    }
    let first = uses.order[passed];
    earlier(uses.recent, first.at)
}

// Adds the last use of an object to the list, if it is lent.
fn list_one(order: &mut Vec<LastUse>, known: Record) -> Result<(), AllocError>
    ensures kept { OnOk result (HasAll order.new.items order.old.items) }
    ensures listed { OnOk result (is_lent known.phase ≡ true
        → Contains order.new.items (use_of known)) }
{
    if !is_lent_phase(known.phase) {
        return Ok(());
    }
    order.push(LastUse {
        id: known.id,
        at: known.used,
    })?;
    Ok(())
}

// Lists the last uses of all lent objects, in place of what was listed.
fn list_lent<T>(
    slots: &Slots<T>,
    index: &SortedIndex,
    order: &mut Vec<LastUse>,
) -> Result<(), AllocError>
    requires { IndexInvariant slots.now index.now.pairs }
    ensures { OnOk result (IsListed order.new.items
        (records_in (objects_of slots.now index.now.pairs))) }
{
    order.clear();
    for pair in index.walk() {
        list_one(order, slots.known(pair.key))?;
    }
    Ok(())
}

// Lists the last uses of all lent objects in ascending order of the time, in place of what was listed.
fn list_in_order<T>(
    slots: &Slots<T>,
    index: &SortedIndex,
    order: &mut Vec<LastUse>,
) -> Result<(), AllocError>
    requires { IndexInvariant slots.now index.now.pairs }
    ensures listed { OnOk result (IsListed order.new.items
        (records_in (objects_of slots.now index.now.pairs))) }
    ensures ascending { OnOk result (IsAscending order.new.items) }
{
    list_lent(slots, index, order)?;
    order.sort_unstable_by_key(|one| one.at);
    Ok(())
}

/// Lists the last uses of all lent objects in place of what was listed. If an allocation fails, none is listed, and only the
/// earliest is stored.
pub(crate) fn list_anew<T>(slots: &Slots<T>, index: &SortedIndex, uses: &mut LastUses)
    requires { IndexInvariant slots.now index.now.pairs }
    ensures { AreLastUses uses.new (records_in (objects_of slots.now index.now.pairs)) }
{
    uses.passed = 0;
    if list_in_order(slots, index, &mut uses.order).is_ok() {
        uses.recent = u64::MAX;
        return;
    }
    uses.order.clear();
    uses.recent = least_use(slots, index);
}
