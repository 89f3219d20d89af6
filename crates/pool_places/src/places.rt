//! The present objects of a pool, by id and in the order of the idle queue, and the values of the idle ones.
ghost use Rattle.std.specs.Prelude.{◌≡◌, ◌≢◌, ◌≤◌, ◌<◌, ◌+◌, ◌^◌, ◌++◌, ◌∷◌, [], ℕ, IfSome, IsSomeAnd, IsTrue, OnOk, OnErr, Some, None, true, false, is_some, length, filter, count_by, slice_get};
ghost use Rattle.std.specs.List.{AllByRecursion};
ghost use Rattle.std.specs.Option.{option_map};
ghost use Rattle.pool_journal.specs.Entries.{is_present};
ghost use Rattle.pool_journal.specs.Queue.{is_idle, is_queued, queue_length, idle_queue, first_of, last_of, record_in};
ghost use Rattle.pool_journal.specs.declared.record.Phase.TheVariants as phases;
ghost use Rattle.pool_journal.specs.declared.record.Record.{Record as Known};
ghost use Rattle.pool_places.specs.After.{is_after};
ghost use Rattle.pool_places.specs.Changes.{with_changed, without_id, new_record, phase_set, lent_at, used_at, parked_at, opens_as, sets_to, takes_to, IdsBelow, IsFreePosition, IsInPhase, QueueBelow};
ghost use Rattle.pool_places.specs.Counts.{is_adding, max_remaining, weight_of, owed_for};
ghost use Rattle.pool_places.specs.Overdue.{is_lent, overdue, IsBound};
ghost use Rattle.pool_places.specs.Turn.{phase_after, turned};
ghost use Rattle.pool_places.specs.PlacesModel.{records_in, value_in, changed, without, new_place, to_phase, to_lent, to_used, to_idle, to_kept, to_taken, PlacesInvariant};

use crate::keys::key_under;
use crate::last_uses::{LastUses, earliest_use, list_anew, passed_at};
use crate::overdue::{earlier, first_overdue, last_use, overdue_count};
use crate::phase_tests::is_queued_phase;
use crate::place_counts::PlaceCounts;
use crate::queue::{change, enter, first_wanted, last_wanted, leave, start_after};
use crate::turning::Turn;
use pool_journal::{Phase, Record};
use pool_slots::Slots;
use sorted_index::SortedIndex;
use std::alloc::{AllocError, Global};
use std::marker::Model;

// A number of places that would take more memory than there are addresses.
const MOST_PLACES: usize = 1 << 60;

/// The present objects in ascending order of id, and the number of further objects that there is memory for.
///
/// With n objects present, `find` and every change of one object take time logarithmic in n, on average over all calls.
/// No object is moved when another is added or freed. `present`, `queued` and `counts` take the same time for every n.
/// `first_idle` and `last_idle` step past the objects under test at their end of the queue. `next_idle_after` searches
/// from the object that `start_search_at` named last, or from the first one. Over a run around the queue it takes the
/// same time on average, even if objects leave. The last uses of lent objects are listed in order from time to time, and
/// the earliest use since then is stored. `count_overdue` and `least_overdue` walk over all objects if one is abandoned,
/// or if that use is at least `timeout` ago. Otherwise they step past the listed uses after which the object was used
/// again or returned. `refresh_abandoned_bound` steps past these for good. It walks and lists anew if that use is at least
/// `timeout` ago: by then each listed object was used again, returned or abandoned, if times never fall. So over many
/// calls a removal that finds nothing takes logarithmic time on average for each use.
#[derive(Drop)]
pub struct Places<T> {
    // The objects under keys, and the queue through them.
    slots: Slots<T>,
    // The key of each id.
    index: SortedIndex,
    // The counts of the objects.
    counts: PlaceCounts,
    // The key of the object in the queue from which the next one is searched for.
    remembered: Option<usize>,
    // When lent objects were last used.
    uses: LastUses,
}

impl<T> Model for Places<T> {
    ghost use Rattle.std.specs.Prelude.{◌-◌, ◌^◌, min, length};
    ghost use Rattle.pool_places.specs.PlacesModel.{PlacesModel};
    ghost use Rattle.pool_places.specs.RepInvariant.{RepInvariant};
    ghost use Rattle.pool_places.specs.Stored.{objects_of};

    ghost Value = { PlacesModel T };

    ghost view = { λ a. record {
      objects = objects_of a.slots a.index.pairs;
      spare_capacity = min (min a.slots.room a.index.spare) (2 ^ 60 - length a.index.pairs);
    } };

    ghost invariant = { λ a. RepInvariant a.slots a.index.pairs a.counts a.remembered
        a.uses };
}

impl<T> Places<T> {
    /// Returns places without objects.
    pub fn new(alloc: Global) -> Self
        ensures { result.objects ≡ [] }
    {
        Places {
            slots: Slots::new(alloc),
            index: SortedIndex::new(alloc),
            counts: PlaceCounts::none(),
            remembered: None,
            uses: LastUses {
                recent: u64::MAX,
                order: Vec::new(alloc),
                passed: 0,
            },
        }
    }

    /// Returns the number of present objects.
    pub fn present(&self) -> usize
        ensures { result ≡ length self.now.objects }
    {
        self.index.len()
    }

    /// Returns the number of objects in the queue.
    pub fn queued(&self) -> usize
        ensures { result ≡ queue_length (records_in self.now.objects) }
    {
        self.counts.queue as usize
    }

    /// Returns the record of an object, if it is present.
    #[inline(always)]
    pub fn find(&self, id: u64) -> Option<Record>
        ensures value { result ≡ record_in (records_in self.now.objects) id }
        ensures well_formed { PlacesInvariant self.now.objects }

        // The outstanding entries with another record in its place, and those of the other objects.
        ensures owed_changed { (change : Known → Known) → IfSome result (λ r.
            owed_for (with_changed id change (records_in self.now.objects)) + max_remaining r.phase
            ≡ owed_for (records_in self.now.objects) + max_remaining (change r).phase) }
        ensures owed_without { IfSome result (λ r.
            owed_for (without_id id (records_in self.now.objects)) + max_remaining r.phase
            ≡ owed_for (records_in self.now.objects)) }
    {
        let key = self.index.find(id)?;
        Some(self.slots.known(key))
    }

    /// Returns the record at position `n`, from 0, in ascending order of id, or `None` if at most `n` objects are
    /// present.
    pub fn nth(&self, n: u64) -> Option<Record>
        ensures { result ≡ slice_get (records_in self.now.objects) n }
    {
        let pair = self.index.nth(n as usize)?;
        Some(self.slots.known(pair.key))
    }

    /// Makes `nth` take the same time for each position, until an object is freed. The objects are unchanged. There may
    /// be memory for more of them.
    pub fn compact_index(&mut self)
        ensures objects { self.new.objects ≡ self.old.objects }
        ensures spare_capacity { self.old.spare_capacity ≤ self.new.spare_capacity }
    {
        self.index.sweep();
    }

    /// Returns the id of the idle object that was parked first.
    pub fn first_idle(&self) -> Option<u64>
        ensures value { result ≡ option_map (λ r. r.id)
            (first_of (idle_queue (records_in self.now.objects))) }
        ensures idle { IfSome result (λ i. IsInPhase (records_in self.now.objects) i phases.Idle) }
    {
        first_wanted(&self.slots, self.slots.first(), None)
    }

    /// Returns the id of the idle object that was parked last.
    #[inline(always)]
    pub fn last_idle(&self) -> Option<u64>
        ensures value { result ≡ option_map (λ r. r.id)
            (last_of (idle_queue (records_in self.now.objects))) }
        ensures idle { IfSome result (λ i. IsInPhase (records_in self.now.objects) i phases.Idle) }
    {
        last_wanted(&self.slots, self.slots.last())
    }

    /// Returns the id of the idle object that was parked first, of those that were parked after position `parked`.
    pub fn next_idle_after(&self, parked: u64) -> Option<u64>
        ensures value { result ≡ option_map (λ r. r.id)
            (first_of (filter (is_after (Some parked)) (idle_queue (records_in self.now.objects)))) }
        ensures idle { IfSome result (λ i. IsInPhase (records_in self.now.objects) i phases.Idle) }
    {
        let first = self.slots.first()?;
        let from = self.remembered.unwrap_or(first);
        let start = start_after(&self.slots, from, parked);
        first_wanted(&self.slots, Some(start), Some(parked))
    }

    /// Makes the search for the next idle object start at this one, if it is in the queue. The objects are unchanged.
    pub fn start_search_at(&mut self, id: u64)
        ensures { self.new ≡ self.old }
    {
        if let Some(key) = self.index.find(id) {
            if is_queued_phase(self.slots.known(key).phase) {
                self.remembered = Some(key);
            }
        }
    }

    /// Returns the least id of the lent objects that, at time `at`, were not used for at least `timeout`. Both are in
    /// milliseconds. A use after `at` counts as a use at `at`.
    pub fn least_overdue(&self, at: u64, timeout: u64) -> Option<u64>
        ensures value { result ≡ option_map (λ r. r.id)
            (first_of (overdue at timeout (records_in self.now.objects))) }
        ensures least { IfSome result (λ i.
            AllByRecursion (λ r. i ≤ r.id) (overdue at timeout (records_in self.now.objects))) }
        ensures lent { IfSome result (λ i. IsInPhase (records_in self.now.objects) i phases.Lent) }
    {
        if at.saturating_sub(self.earliest_use(at, timeout)) < timeout {
            return None;
        }
        first_overdue(&self.slots, &self.index, at, timeout)
    }

    /// Returns the number of lent objects that, at time `at`, were not used for at least `timeout` (both in
    /// milliseconds).
    pub fn count_overdue(&self, at: u64, timeout: u64) -> u64
        ensures { result ≡ length (overdue at timeout (records_in self.now.objects)) }
    {
        if at.saturating_sub(self.earliest_use(at, timeout)) < timeout {
            return 0;
        }
        overdue_count(&self.slots, &self.index, at, timeout)
    }

    // Returns a time before which no lent object was last used. It is later than `timeout` before `at` if that is known.
    fn earliest_use(&self, at: u64, timeout: u64) -> u64
        ensures { IsBound result (records_in self.now.objects) }
    {
        let passed = passed_at(&self.slots, &self.index, &self.uses, at, timeout);
        earliest_use(&self.uses, passed)
    }

    /// Lists the times at which lent objects were last used, if it is not known otherwise that none is abandoned at time
    /// `at` with this `timeout` (both in milliseconds). The objects are unchanged. If an allocation fails, only the
    /// earliest time is stored.
    pub fn refresh_abandoned_bound(&mut self, at: u64, timeout: u64)
        ensures { self.new ≡ self.old }
    {
        self.uses.passed = passed_at(&self.slots, &self.index, &self.uses, at, timeout);
        if at.saturating_sub(self.uses.recent) < timeout {
            return;
        }
        list_anew(&self.slots, &self.index, &mut self.uses);
    }

    /// Returns the number of objects of each kind, and of their outstanding entries.
    #[inline(always)]
    pub fn counts(&self) -> PlaceCounts
        ensures present { result.present ≡ length self.now.objects }
        ensures queue { result.queue ≡ queue_length (records_in self.now.objects) }
        ensures idle { result.idle ≡ count_by (λ r. is_idle r.phase) (records_in self.now.objects) }
        ensures lent { result.lent ≡ count_by (λ r. is_lent r.phase) (records_in self.now.objects) }
        ensures adding { result.adding
            ≡ count_by (λ r. is_adding r.phase) (records_in self.now.objects) }
        ensures owed { result.owed ≡ owed_for (records_in self.now.objects) }
        ensures small { result.owed < 2 ^ 63 }
        ensures well_formed { PlacesInvariant self.now.objects }
    {
        self.counts
    }

    /// Reserves memory for one more object. The objects are unchanged.
    ///
    /// # Errors
    ///
    /// An allocation failed, or 2^60 objects are present.
    pub fn reserve_one(&mut self) -> Result<(), AllocError>
        ensures objects { self.new.objects ≡ self.old.objects }
        ensures ok { OnOk result (1 ≤ self.new.spare_capacity) }
        ensures full { OnErr result (self.old.spare_capacity ≡ 0) }
        ensures spare_capacity { self.old.spare_capacity ≤ self.new.spare_capacity }
    {
        if self.present() >= MOST_PLACES {
            return Err(AllocError);
        }
        self.slots.reserve_one()?;
        self.index.reserve_one()
    }

    /// Reserves memory for `n` more objects. The objects are unchanged.
    ///
    /// # Errors
    ///
    /// An allocation failed, or there would be more than 2^60 objects.
    pub fn reserve(&mut self, n: usize) -> Result<(), AllocError>
        ensures objects { self.new.objects ≡ self.old.objects }
        ensures ok { OnOk result (n ≤ self.new.spare_capacity) }
        ensures full { OnErr result (self.old.spare_capacity < n) }
        ensures spare_capacity { self.old.spare_capacity ≤ self.new.spare_capacity }
    {
        if n > MOST_PLACES - self.present() {
            return Err(AllocError);
        }
        self.slots.reserve(n)?;
        self.index.reserve(n)
    }

    /// Restores an object from its record, in the memory that was reserved, with its value if it is idle. If its phase
    /// is one of the queue, the object enters the queue in the order of the positions.
    ///
    /// The search in the queue starts at the object that was restored last, or that `start_search_at` named since. It
    /// takes the same time for every length of the queue if positions ascend or descend from object to object, or if
    /// one of the neighbours in the queue was named. If positions have no order, it walks along the queue.
    pub fn restore(&mut self, known: Record, value: Option<T>)
        requires reserved { 1 ≤ self.old.spare_capacity }
        requires above { IdsBelow known.id (records_in self.old.objects) }
        requires phase { IsTrue (is_present known.phase) }
        requires valued { is_some value ≡ is_idle known.phase }
        requires position { is_queued known.phase ≡ true
            → IsFreePosition known.parked (records_in self.old.objects) }
        ensures objects { self.new.objects ≡ self.old.objects
            ++ record { known = known; value = value } ∷ [] }
        ensures records { records_in self.new.objects ≡ records_in self.old.objects ++ known ∷ [] }
        ensures value { value_in self.new.objects known.id ≡ value }
        ensures others { (j : ℕ) → j ≢ known.id →
            value_in self.new.objects j ≡ value_in self.old.objects j }
        ensures owed { owed_for (records_in self.new.objects)
            ≡ owed_for (records_in self.old.objects) + max_remaining known.phase }
        ensures spare_capacity { self.new.spare_capacity + 1 ≡ self.old.spare_capacity }
        ensures well_formed { PlacesInvariant self.new.objects }
    {
        let key = self.slots.insert_with(known, value);
        enter(&mut self.slots, &mut self.remembered, key, known);
        self.index.push(known.id, key);
        self.counts.add(known.phase);
        self.uses.recent = earlier(self.uses.recent, last_use(known));
    }

    /// Adds an object that was just created, in the memory that was reserved. Its phase is `Readying` or `Adding`.
    pub fn open(&mut self, id: u64, phase: Phase)
        requires reserved { 1 ≤ self.old.spare_capacity }
        requires above { IdsBelow id (records_in self.old.objects) }
        requires phase { IsTrue (opens_as phase) }
        ensures objects { self.new.objects ≡ self.old.objects ++ new_place id phase ∷ [] }
        ensures records { records_in self.new.objects
            ≡ records_in self.old.objects ++ new_record id phase ∷ [] }
        ensures values { (j : ℕ) → value_in self.new.objects j ≡ value_in self.old.objects j }
        ensures owed { owed_for (records_in self.new.objects)
            ≡ owed_for (records_in self.old.objects) + max_remaining phase }
        ensures spare_capacity { self.new.spare_capacity + 1 ≡ self.old.spare_capacity }
    {
        let key = self.slots.insert(Record {
            id,
            phase,
            parked: 0,
            since: 0,
            lent: 0,
            used: 0,
            is_new: true,
        });
        self.index.push(id, key);
        self.counts.add(phase);
    }

    // Changes the record of an object in phase `from`, which isn't idle, and isn't in the queue afterwards.
    #[inline(always)]
    fn turn(&mut self, id: u64, from: Phase, turn: Turn)
        requires present { IsInPhase (records_in self.old.objects) id from }
        requires before { is_idle from ≡ false }
        requires after { is_queued (phase_after turn from) ≡ false }
        ensures objects { self.new.objects
            ≡ changed id (λ p. record p { known = turned turn p.known }) self.old.objects }
        ensures records { records_in self.new.objects
            ≡ with_changed id (turned turn) (records_in self.old.objects) }
        ensures values { (j : ℕ) → value_in self.new.objects j ≡ value_in self.old.objects j }
        ensures owed { owed_for (records_in self.new.objects) + max_remaining from
            ≡ owed_for (records_in self.old.objects) + max_remaining (phase_after turn from) }
        ensures spare_capacity { self.old.spare_capacity ≤ self.new.spare_capacity }
    {
        let key = key_under(&self.index, id);
        let known = self.slots.known(key);
        let next = turn.of(known);
        change(&mut self.slots, &mut self.remembered, key, known, next);
        self.counts.remove(from);
        self.counts.add(next.phase);
        self.uses.recent = earlier(self.uses.recent, last_use(next));
    }

    /// Moves an object that isn't idle to `Returning` or `Destroying`.
    pub fn set_phase(&mut self, id: u64, phase: Phase)
        requires present { IsSomeAnd (record_in (records_in self.old.objects) id)
            (λ r. is_idle r.phase ≡ false) }
        requires phase { IsTrue (sets_to phase) }
        ensures objects { self.new.objects ≡ changed id (to_phase phase) self.old.objects }
        ensures records { records_in self.new.objects
            ≡ with_changed id (phase_set phase) (records_in self.old.objects) }
        ensures values { (j : ℕ) → value_in self.new.objects j ≡ value_in self.old.objects j }
        ensures owed { owed_for (records_in self.new.objects)
            + weight_of (record_in (records_in self.old.objects) id)
            ≡ owed_for (records_in self.old.objects) + max_remaining phase }
        ensures spare_capacity { self.old.spare_capacity ≤ self.new.spare_capacity }
    {
        match self.find(id) {
            Some(known) => self.turn(id, known.phase, Turn::Reach(phase)),
            None => unreachable!(),
        }
    }

    /// Lends an activated object at time `at` (milliseconds).
    pub fn set_lent(&mut self, id: u64, at: u64)
        requires present { IsInPhase (records_in self.old.objects) id phases.Readying }
        ensures objects { self.new.objects ≡ changed id (to_lent at) self.old.objects }
        ensures records { records_in self.new.objects
            ≡ with_changed id (lent_at at) (records_in self.old.objects) }
        ensures values { (j : ℕ) → value_in self.new.objects j ≡ value_in self.old.objects j }
        ensures owed { owed_for (records_in self.new.objects) + max_remaining phases.Readying
            ≡ owed_for (records_in self.old.objects) + max_remaining phases.Lent }
        ensures spare_capacity { self.old.spare_capacity ≤ self.new.spare_capacity }
    {
        self.turn(id, Phase::Readying, Turn::Lend(at));
    }

    /// Moves a lent object to `Returning`.
    pub fn set_returned(&mut self, id: u64)
        requires present { IsInPhase (records_in self.old.objects) id phases.Lent }
        ensures objects { self.new.objects
            ≡ changed id (to_phase phases.Returning) self.old.objects }
        ensures records { records_in self.new.objects
            ≡ with_changed id (phase_set phases.Returning) (records_in self.old.objects) }
        ensures values { (j : ℕ) → value_in self.new.objects j ≡ value_in self.old.objects j }
        ensures owed { owed_for (records_in self.new.objects) + max_remaining phases.Lent
            ≡ owed_for (records_in self.old.objects) + max_remaining phases.Returning }
        ensures spare_capacity { self.old.spare_capacity ≤ self.new.spare_capacity }
    {
        self.turn(id, Phase::Lent, Turn::Reach(Phase::Returning));
    }

    /// Records that a lent object is used at time `at` (milliseconds).
    pub fn set_used(&mut self, id: u64, at: u64)
        requires present { IsInPhase (records_in self.old.objects) id phases.Lent }
        ensures objects { self.new.objects ≡ changed id (to_used at) self.old.objects }
        ensures records { records_in self.new.objects
            ≡ with_changed id (used_at at) (records_in self.old.objects) }
        ensures values { (j : ℕ) → value_in self.new.objects j ≡ value_in self.old.objects j }
        ensures owed { owed_for (records_in self.new.objects) ≡ owed_for (records_in self.old.objects) }
        ensures spare_capacity { self.old.spare_capacity ≤ self.new.spare_capacity }
    {
        self.turn(id, Phase::Lent, Turn::Use(at));
    }

    /// Puts an object at the end of the queue, with its value. The position `parked` is above all in the queue, and
    /// `since` is a time in milliseconds.
    pub fn park(&mut self, id: u64, parked: u64, since: u64, value: T)
        requires present { IsSomeAnd (record_in (records_in self.old.objects) id)
            (λ r. is_queued r.phase ≡ false) }
        requires above { QueueBelow parked (records_in self.old.objects) }
        ensures objects { self.new.objects ≡ changed id (to_idle parked since value) self.old.objects }
        ensures records { records_in self.new.objects
            ≡ with_changed id (parked_at parked since) (records_in self.old.objects) }
        ensures value { value_in self.new.objects id ≡ Some value }
        ensures others { (j : ℕ) → j ≢ id →
            value_in self.new.objects j ≡ value_in self.old.objects j }
        ensures owed { owed_for (records_in self.new.objects)
            + weight_of (record_in (records_in self.old.objects) id)
            ≡ owed_for (records_in self.old.objects) + max_remaining phases.Idle }
        ensures spare_capacity { self.old.spare_capacity ≤ self.new.spare_capacity }
    {
        let key = key_under(&self.index, id);
        let known = self.slots.known(key);
        self.slots.set_known(
            key,
            Record {
                phase: Phase::Idle,
                parked,
                since,
                is_new: false,
                ..known
            },
        );
        self.counts.remove(known.phase);
        self.counts.add(Phase::Idle);
        self.slots.put(key, value);
        self.slots.link_last(key);
    }

    /// Removes the value of an idle object and returns it. In phase `Testing` the object keeps its position in the
    /// queue, in phase `Readying` or `Destroying` it leaves the queue.
    #[inline(always)]
    pub fn take_value(&mut self, id: u64, phase: Phase) -> T
        requires present { IsInPhase (records_in self.old.objects) id phases.Idle }
        requires phase { IsTrue (takes_to phase) }
        ensures objects { self.new.objects ≡ changed id (to_taken phase) self.old.objects }
        ensures records { records_in self.new.objects
            ≡ with_changed id (phase_set phase) (records_in self.old.objects) }
        ensures value { value_in self.old.objects id ≡ Some result }
        ensures given { value_in self.new.objects id ≡ None }
        ensures others { (j : ℕ) → j ≢ id →
            value_in self.new.objects j ≡ value_in self.old.objects j }
        ensures owed { owed_for (records_in self.new.objects) + max_remaining phases.Idle
            ≡ owed_for (records_in self.old.objects) + max_remaining phase }
        ensures spare_capacity { self.old.spare_capacity ≤ self.new.spare_capacity }
    {
        let key = key_under(&self.index, id);
        let known = self.slots.known(key);
        let value = self.slots.take(key);
        self.counts.remove(Phase::Idle);
        self.counts.add(phase);
        let taken = Record {
            phase,
            is_new: false,
            ..known
        };
        change(&mut self.slots, &mut self.remembered, key, known, taken);
        value
    }

    /// Removes the value of an idle object and returns it. The object leaves the queue, in phase `Readying`.
    pub fn take_ready(&mut self, id: u64) -> T
        requires present { IsInPhase (records_in self.old.objects) id phases.Idle }
        ensures objects { self.new.objects
            ≡ changed id (to_taken phases.Readying) self.old.objects }
        ensures records { records_in self.new.objects
            ≡ with_changed id (phase_set phases.Readying) (records_in self.old.objects) }
        ensures value { value_in self.old.objects id ≡ Some result }
        ensures given { value_in self.new.objects id ≡ None }
        ensures others { (j : ℕ) → j ≢ id →
            value_in self.new.objects j ≡ value_in self.old.objects j }
        ensures owed { owed_for (records_in self.new.objects) + max_remaining phases.Idle
            ≡ owed_for (records_in self.old.objects) + max_remaining phases.Readying }
        ensures spare_capacity { self.old.spare_capacity ≤ self.new.spare_capacity }
    {
        self.take_value(id, Phase::Readying)
    }

    /// Lends an idle object at time `at` (milliseconds), and returns its value: as `take_ready` and then `set_lent`.
    pub fn lend_value(&mut self, id: u64, at: u64) -> T
        requires present { IsInPhase (records_in self.old.objects) id phases.Idle }
        ensures objects { self.new.objects
            ≡ changed id (to_lent at) (changed id (to_taken phases.Readying) self.old.objects) }
        ensures value { value_in self.old.objects id ≡ Some result }
        ensures owed_between { owed_for
            (records_in (changed id (to_taken phases.Readying) self.old.objects))
            + max_remaining phases.Idle
            ≡ owed_for (records_in self.old.objects) + max_remaining phases.Readying }
        ensures owed { owed_for (records_in self.new.objects) + max_remaining phases.Idle
            ≡ owed_for (records_in self.old.objects) + max_remaining phases.Lent }
        ensures spare_capacity { self.old.spare_capacity ≤ self.new.spare_capacity }
    {
        let key = key_under(&self.index, id);
        let known = self.slots.known(key);
        let given = self.slots.take(key);
        self.counts.remove(Phase::Idle);
        self.counts.add(Phase::Lent);
        self.uses.recent = earlier(self.uses.recent, at);
        let lent = at;
        let loan = Record {
            phase: Phase::Lent,
            lent,
            used: at,
            is_new: false,
            ..known
        };
        change(&mut self.slots, &mut self.remembered, key, known, loan);
        given
    }

    /// Puts a lent object at the end of the queue, with its value: as `set_returned` and then `park`.
    pub fn park_lent(&mut self, id: u64, parked: u64, since: u64, value: T)
        requires present { IsInPhase (records_in self.old.objects) id phases.Lent }
        requires above { QueueBelow parked (records_in self.old.objects) }
        ensures objects { self.new.objects ≡ changed id (to_idle parked since value)
            (changed id (to_phase phases.Returning) self.old.objects) }
        ensures value { value_in self.new.objects id ≡ Some value }
        ensures owed_between { owed_for
            (records_in (changed id (to_phase phases.Returning) self.old.objects))
            + max_remaining phases.Lent
            ≡ owed_for (records_in self.old.objects) + max_remaining phases.Returning }
        ensures owed { owed_for (records_in self.new.objects) + max_remaining phases.Lent
            ≡ owed_for (records_in self.old.objects) + max_remaining phases.Idle }
        ensures spare_capacity { self.old.spare_capacity ≤ self.new.spare_capacity }
    {
        let key = key_under(&self.index, id);
        let known = self.slots.known(key);
        let idle = Record {
            phase: Phase::Idle,
            parked,
            is_new: false,
            ..known
        };
        self.slots.set_known(key, Record { since, ..idle });
        self.counts.remove(Phase::Lent);
        self.counts.add(Phase::Idle);
        self.slots.put(key, value);
        self.slots.link_last(key);
    }

    /// Stores the value of an object under an idle test, so that it is idle again. It keeps its position in the queue.
    pub fn put_value(&mut self, id: u64, value: T)
        requires present { IsInPhase (records_in self.old.objects) id phases.Testing }
        ensures objects { self.new.objects ≡ changed id (to_kept value) self.old.objects }
        ensures records { records_in self.new.objects
            ≡ with_changed id (phase_set phases.Idle) (records_in self.old.objects) }
        ensures value { value_in self.new.objects id ≡ Some value }
        ensures others { (j : ℕ) → j ≢ id →
            value_in self.new.objects j ≡ value_in self.old.objects j }
        ensures owed { owed_for (records_in self.new.objects) + max_remaining phases.Testing
            ≡ owed_for (records_in self.old.objects) + max_remaining phases.Idle }
        ensures spare_capacity { self.old.spare_capacity ≤ self.new.spare_capacity }
    {
        let key = key_under(&self.index, id);
        let known = self.slots.known(key);
        self.slots.put(key, value);
        self.counts.remove(Phase::Testing);
        self.counts.add(Phase::Idle);
        let kept = Record {
            phase: Phase::Idle,
            is_new: false,
            ..known
        };
        change(&mut self.slots, &mut self.remembered, key, known, kept);
    }

    /// Frees the place of an object that isn't idle.
    pub fn free(&mut self, id: u64)
        requires present { IsSomeAnd (record_in (records_in self.old.objects) id)
            (λ r. is_idle r.phase ≡ false) }
        ensures objects { self.new.objects ≡ without id self.old.objects }
        ensures records { records_in self.new.objects ≡ without_id id (records_in self.old.objects) }
        ensures values { (j : ℕ) → value_in self.new.objects j ≡ value_in self.old.objects j }
        ensures owed { owed_for (records_in self.new.objects)
            + weight_of (record_in (records_in self.old.objects) id)
            ≡ owed_for (records_in self.old.objects) }
        ensures spare_capacity { self.old.spare_capacity ≤ self.new.spare_capacity }
    {
        let key = self.index.remove(id);
        let phase = self.slots.known(key).phase;
        leave(
            &mut self.slots,
            &mut self.remembered,
            key,
            phase,
            Phase::Gone,
        );
        self.slots.remove(key);
        self.counts.remove(phase);
    }
}
