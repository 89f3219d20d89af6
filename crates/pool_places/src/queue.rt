//! Searches the queue of idle objects, and puts objects into it or removes them.
ghost use Rattle.std.specs.Prelude.{◌≡◌, ◌≢◌, ℕ, if◌then◌else◌, Some, IfSome, true, false, map, find, reverse};
ghost use Rattle.std.specs.List.{AllByRecursion};
ghost use Rattle.std.specs.Option.{option_map};
ghost use Rattle.pool_journal.specs.Queue.{is_queued};
ghost use Rattle.pool_slots.specs.SlotsModel.{is_in, without, known_at, value_at, Sets, SlotsInvariant};
ghost use Rattle.pool_places.specs.RepInvariant.{IsWithin};
ghost use Rattle.pool_places.specs.Stored.{entry_at, entry_of, first_parked, from_key, parked_of};
ghost use Rattle.pool_places.specs.QueueEntries.{IsAscendingQueue, is_wanted};

use crate::phase_tests::{is_idle_phase, is_queued_phase};
use pool_journal::{Phase, Record};
use pool_slots::Slots;

// The key that is remembered after an object leaves the queue: the one before it, if its own key was remembered.
#[inline(always)]
fn passed_on<T>(slots: &Slots<T>, remembered: Option<usize>, key: usize) -> Option<usize>
    requires queued { is_in key slots.now.queue ≡ true }
    requires remembered { IsWithin slots.now.queue remembered }
    ensures { IsWithin (without key slots.now.queue) result }
{
    let kept = remembered?;
    if kept == key {
        slots.before(key)
    } else {
        Some(kept)
    }
}

/// Removes an object from the queue, if it is in it and its new phase isn't one of the queue.
#[inline(always)]
pub(crate) fn leave<T>(
    slots: &mut Slots<T>,
    remembered: &mut Option<usize>,
    key: usize,
    from: Phase,
    to: Phase,
)
    requires follows { is_in key slots.old.queue ≡ is_queued from }
    requires remembered { IsWithin slots.old.queue remembered.old }
    ensures queue { slots.new ≡ record slots.old {
      queue = if is_queued to then slots.old.queue else without key slots.old.queue;
    } }
    ensures remembered { IsWithin slots.new.queue remembered.new }
{
    if is_queued_phase(from) && !is_queued_phase(to) {
        *remembered = passed_on(slots, *remembered, key);
        slots.unlink(key);
    }
}

/// Replaces the record of an object. The object leaves the queue if its new phase isn't one of the queue.
#[inline(always)]
pub(crate) fn change<T>(
    slots: &mut Slots<T>,
    remembered: &mut Option<usize>,
    key: usize,
    from: Record,
    to: Record,
)
    requires known { known_at slots.old key ≡ Some from }
    requires follows { is_in key slots.old.queue ≡ is_queued from.phase }
    requires remembered { IsWithin slots.old.queue remembered.old }
    ensures sets { Sets slots.old slots.new key
        (Some (record { known = to; value = value_at slots.old key })) }
    ensures queue { slots.new.queue
        ≡ (if is_queued to.phase then slots.old.queue else without key slots.old.queue) }
    ensures room { slots.new.room ≡ slots.old.room }
    ensures remembered { IsWithin slots.new.queue remembered.new }
{
    slots.set_known(key, to);
    leave(slots, remembered, key, from.phase, to.phase);
}

// Whether an object of the queue is idle, and was parked after the position if there is one.
fn is_wanted_record(known: Record, after: Option<u64>) -> bool
    ensures { result ≡ is_wanted after (entry_of known) }
{
    match after {
        None => is_idle_phase(known.phase),
        Some(position) => is_idle_phase(known.phase) && known.parked > position,
    }
}

/// Returns the first idle object from `from` onwards, and if `after` is given, the first that was parked after it.
pub(crate) fn first_wanted<T>(
    slots: &Slots<T>,
    from: Option<usize>,
    after: Option<u64>,
) -> Option<u64>
    requires rack { SlotsInvariant slots.now }
    requires from { IsWithin slots.now.queue from }
    ensures { result ≡ option_map (λ q. q.id)
        (find (is_wanted after) (map (entry_at slots.now) (from_key from slots.now.queue))) }
{
    let mut next = from;
    while let Some(key) = next {
        let known = slots.known(key);
        if is_wanted_record(known, after) {
            return Some(known.id);
        }
        next = slots.after(key);
    }
    None
}

/// Returns the last idle object from `from` backwards.
pub(crate) fn last_wanted<T>(slots: &Slots<T>, from: Option<usize>) -> Option<u64>
    requires rack { SlotsInvariant slots.now }
    requires from { IsWithin slots.now.queue from }
    ensures { result ≡ option_map (λ q. q.id) (find (λ q. q.is_idle)
        (map (entry_at slots.now) (from_key from (reverse slots.now.queue)))) }
{
    let mut next = from;
    while let Some(key) = next {
        let known = slots.known(key);
        if is_idle_phase(known.phase) {
            return Some(known.id);
        }
        next = slots.before(key);
    }
    None
}

/// Returns an object of the queue before which none was parked after `position`, searched for from `from` backwards.
pub(crate) fn start_after<T>(slots: &Slots<T>, from: usize, position: u64) -> usize
    requires rack { SlotsInvariant slots.now }
    requires from { is_in from slots.now.queue ≡ true }
    requires ascends { IsAscendingQueue (parked_of slots.now) }
    ensures queued { is_in result slots.now.queue ≡ true }
    ensures start { find (is_wanted (Some position)) (parked_of slots.now)
        ≡ find (is_wanted (Some position))
        (map (entry_at slots.now) (from_key (Some result) slots.now.queue)) }
    ensures parked { first_parked slots.now position slots.now.queue
        ≡ first_parked slots.now position (from_key (Some result) slots.now.queue) }
{
    let mut start = from;
    while let Some(before) = slots.before(start) {
        if slots.known(before).parked <= position {
            return start;
        }
        start = before;
    }
    start
}

/// Returns the first object of the queue that was parked after `position`, searched for from `from`, or from the first
/// object if `from` is `None`.
pub(crate) fn first_after<T>(slots: &Slots<T>, from: Option<usize>, position: u64) -> Option<usize>
    requires from { IsWithin slots.now.queue from }
    requires ascends { IsAscendingQueue (parked_of slots.now) }
    ensures first { result ≡ first_parked slots.now position slots.now.queue }
    ensures rack { SlotsInvariant slots.now }
{
    let first = slots.first()?;
    let mut next = Some(start_after(slots, from.unwrap_or(first), position));
    while let Some(key) = next {
        if slots.known(key).parked > position {
            return Some(key);
        }
        next = slots.after(key);
    }
    None
}

/// Puts an object into the queue in the order of the positions, if its phase is one of the queue. The next search then
/// starts at it.
pub(crate) fn enter<T>(
    slots: &mut Slots<T>,
    remembered: &mut Option<usize>,
    key: usize,
    known: Record,
)
    requires known { known_at slots.old key ≡ Some known }
    requires out { is_in key slots.old.queue ≡ false }
    requires ascends { IsAscendingQueue (parked_of slots.old) }
    requires free { is_queued known.phase ≡ true
        → AllByRecursion (λ q. q.parked ≢ known.parked) (parked_of slots.old) }
    requires remembered { IsWithin slots.old.queue remembered.old }
    ensures rest { slots.new ≡ record slots.old { queue = slots.new.queue } }
    ensures here { is_in key slots.new.queue ≡ is_queued known.phase }
    ensures others { (other : ℕ) → other ≢ key →
        is_in other slots.new.queue ≡ is_in other slots.old.queue }
    ensures ascends { IsAscendingQueue (parked_of slots.new) }
    ensures remembered { IsWithin slots.new.queue remembered.new }
{
    if is_queued_phase(known.phase) {
        let next = first_after(slots, *remembered, known.parked);
        slots.link_before(next, key);
        *remembered = Some(key);
    }
}
