//! Objects under keys, with their records and values, and one queue through some of them.
ghost use Rattle.std.specs.Prelude.{◌≡◌, ◌≤◌, ◌<◌, ◌+◌, ◌++◌, ◌∷◌, [], IfSome, IsSome, IsSomeAnd, Some, None, true, false, OnOk, OnErr};
ghost use Rattle.std.specs.Option.{option_map};
ghost use Rattle.pool_journal.specs.Queue.{first_of, last_of};
ghost use Rattle.pool_slots.specs.SlotsModel.{is_in, without, put_before, item_at, known_at, value_at, item_count, new_item, with_known, with_value, Sets, SlotsInvariant, IsNextIn, IsPreviousIn};

use crate::joining::{join, place_before};
use crate::linking::Links;
use crate::slot::Slot;
use pool_journal::Record;
use slab::Slab;
use std::alloc::{AllocError, Global};
use std::marker::Model;

/// Objects under keys, some of them in one queue.
///
/// Each call takes the same time, however many objects there are. A key is used again only after its object is
/// removed.
#[derive(Drop)]
pub struct Slots<T> {
    slots: Slab<Slot<T>>,
    // The two ends of the queue.
    first: Option<usize>,
    last: Option<usize>,
}

impl<T> Model for Slots<T> {
    ghost use Rattle.pool_slots.specs.SlotsModel.{SlotsModel};

    ghost Value = { SlotsModel T };

    ghost use Rattle.pool_slots.specs.Links.{rack_of, queue_of, IsQueue};

    ghost view = { λ a. rack_of a.slots a.first };

    ghost invariant = { λ a. IsQueue a.slots a.first a.last (queue_of a.slots a.first) };
}

impl<T> Slots<T> {
    /// Returns slots without objects.
    pub fn new(alloc: Global) -> Self
        ensures items { result.items ≡ [] }
        ensures queue { result.queue ≡ [] }
        ensures room { result.room ≡ 0 }
    {
        Slots {
            slots: Slab::new(alloc),
            first: None,
            last: None,
        }
    }

    /// Returns the number of objects.
    pub fn len(&self) -> usize
        ensures count { result ≡ item_count self.now }
        ensures rack { SlotsInvariant self.now }
    {
        self.slots.len()
    }

    /// Reserves memory for one more object. If there is no memory, nothing changes.
    ///
    /// # Errors
    ///
    /// There is no room, and the allocation failed.
    pub fn reserve_one(&mut self) -> Result<(), AllocError>
        ensures ok { OnOk result (1 ≤ self.new.room) }
        ensures full { OnErr result (self.old.room ≡ 0) }
        ensures room { self.old.room ≤ self.new.room }
        ensures rest { self.new ≡ record self.old { room = self.new.room } }
    {
        self.slots.reserve(1)
    }

    /// Reserves memory for `count` more objects. If there is no memory, nothing changes.
    ///
    /// # Errors
    ///
    /// There is no room for `count` objects, and the allocation failed.
    pub fn reserve(&mut self, count: usize) -> Result<(), AllocError>
        ensures ok { OnOk result (count ≤ self.new.room) }
        ensures full { OnErr result (self.old.room < count) }
        ensures room { self.old.room ≤ self.new.room }
        ensures rest { self.new ≡ record self.old { room = self.new.room } }
    {
        if count == 0 {
            return Ok(());
        }
        self.slots.reserve(count)
    }

    /// Puts an object under a free key, in the memory that was reserved, and returns the key. The object has no value,
    /// and isn't in the queue.
    pub fn insert(&mut self, known: Record) -> usize
        requires { 1 ≤ self.old.room }
        ensures vacant { item_at self.old result ≡ None }
        ensures sets { Sets self.old self.new result (Some (new_item known)) }
        ensures count { item_count self.new ≡ item_count self.old + 1 }
        ensures out { is_in result self.new.queue ≡ false }
        ensures queue { self.new.queue ≡ self.old.queue }
        ensures room { self.new.room + 1 ≡ self.old.room }
    {
        self.insert_with(known, None)
    }

    /// Puts an object under a free key, in the memory that was reserved, with its value if it has one, and returns the
    /// key. The object isn't in the queue.
    pub fn insert_with(&mut self, known: Record, value: Option<T>) -> usize
        requires { 1 ≤ self.old.room }
        ensures vacant { item_at self.old result ≡ None }
        ensures sets { Sets self.old self.new result
            (Some (record { known = known; value = value })) }
        ensures count { item_count self.new ≡ item_count self.old + 1 }
        ensures out { is_in result self.new.queue ≡ false }
        ensures queue { self.new.queue ≡ self.old.queue }
        ensures room { self.new.room + 1 ≡ self.old.room }
    {
        self.slots.insert_reserved(Slot {
            known,
            value,
            links: Links::none(),
        })
    }

    /// Removes an object that has no value and isn't in the queue. Its key is free again.
    pub fn remove(&mut self, key: usize)
        requires empty { IsSomeAnd (item_at self.old key) (λ item. item.value ≡ None) }
        requires out { is_in key self.old.queue ≡ false }
        ensures sets { Sets self.old self.new key None }
        ensures count { item_count self.new + 1 ≡ item_count self.old }
        ensures queue { self.new.queue ≡ self.old.queue }
        ensures room { self.new.room ≡ self.old.room + 1 }
    {
        let Slot {
            known: _,
            value,
            links: _,
        } = self.slots.remove(key);
        match value {
            None => {}
            Some(_) => unreachable!(),
        }
    }

    /// Returns the record of an object.
    #[inline(always)]
    pub fn known(&self, key: usize) -> Record
        requires { IsSome (item_at self.now key) }
        ensures { known_at self.now key ≡ Some result }
    {
        self.slots[key].known
    }

    /// Replaces the record of an object.
    #[inline(always)]
    pub fn set_known(&mut self, key: usize, known: Record)
        requires { IsSome (item_at self.old key) }
        ensures sets { Sets self.old self.new key
            (option_map (with_known known) (item_at self.old key)) }
        ensures count { item_count self.new ≡ item_count self.old }
        ensures queue { self.new.queue ≡ self.old.queue }
        ensures room { self.new.room ≡ self.old.room }
    {
        let slot = &mut self.slots[key];
        slot.known = known;
    }

    /// Stores a value for an object that has none.
    #[inline(always)]
    pub fn put(&mut self, key: usize, value: T)
        requires { IsSomeAnd (item_at self.old key) (λ item. item.value ≡ None) }
        ensures sets { Sets self.old self.new key
            (option_map (with_value (Some value)) (item_at self.old key)) }
        ensures count { item_count self.new ≡ item_count self.old }
        ensures queue { self.new.queue ≡ self.old.queue }
        ensures room { self.new.room ≡ self.old.room }
    {
        let slot = &mut self.slots[key];
        match slot.value.replace(value) {
            None => {}
            Some(_) => unreachable!(),
        }
    }

    /// Removes the stored value of an object and returns it.
    #[inline(always)]
    pub fn take(&mut self, key: usize) -> T
        requires { IsSome (value_at self.old key) }
        ensures value { value_at self.old key ≡ Some result }
        ensures sets { Sets self.old self.new key
            (option_map (with_value None) (item_at self.old key)) }
        ensures count { item_count self.new ≡ item_count self.old }
        ensures queue { self.new.queue ≡ self.old.queue }
        ensures room { self.new.room ≡ self.old.room }
    {
        let slot = &mut self.slots[key];
        slot.value.take().unwrap()
    }

    /// Puts an object at the end of the queue.
    #[inline(always)]
    pub fn link_last(&mut self, key: usize)
        requires present { IsSome (item_at self.old key) }
        requires out { is_in key self.old.queue ≡ false }
        ensures { self.new ≡ record self.old { queue = self.old.queue ++ key ∷ [] } }
    {
        let last = self.last;
        join(
            &mut self.slots,
            &mut self.first,
            &mut self.last,
            last,
            Some(key),
        );
        join(
            &mut self.slots,
            &mut self.first,
            &mut self.last,
            Some(key),
            None,
        );
    }

    /// Puts an object into the queue, right before `next`, or at the end of the queue if `next` is `None`.
    pub fn link_before(&mut self, next: Option<usize>, key: usize)
        requires present { IsSome (item_at self.old key) }
        requires out { is_in key self.old.queue ≡ false }
        requires next { IfSome next (λ other. is_in other self.old.queue ≡ true) }
        ensures { self.new ≡ record self.old { queue = put_before next key self.old.queue } }
    {
        let before = place_before(&self.slots, self.last, next);
        join(
            &mut self.slots,
            &mut self.first,
            &mut self.last,
            before,
            Some(key),
        );
        join(
            &mut self.slots,
            &mut self.first,
            &mut self.last,
            Some(key),
            next,
        );
    }

    /// Removes an object from the queue, at any position.
    #[inline(always)]
    pub fn unlink(&mut self, key: usize)
        requires { is_in key self.old.queue ≡ true }
        ensures { self.new ≡ record self.old { queue = without key self.old.queue } }
    {
        let slot = &self.slots[key];
        let before = slot.links.before();
        let after = slot.links.after();
        join(
            &mut self.slots,
            &mut self.first,
            &mut self.last,
            before,
            after,
        );
    }

    /// Returns the first key of the queue.
    #[inline(always)]
    pub fn first(&self) -> Option<usize>
        ensures first { result ≡ first_of self.now.queue }
        ensures rack { SlotsInvariant self.now }
    {
        self.first
    }

    /// Returns the last key of the queue.
    #[inline(always)]
    pub fn last(&self) -> Option<usize>
        ensures last { result ≡ last_of self.now.queue }
        ensures rack { SlotsInvariant self.now }
    {
        self.last
    }

    /// Returns the key after another one in the queue.
    #[inline(always)]
    pub fn after(&self, key: usize) -> Option<usize>
        requires { is_in key self.now.queue ≡ true }
        ensures { IsNextIn self.now.queue key result }
    {
        self.slots[key].links.after()
    }

    /// Returns the key before another one in the queue.
    #[inline(always)]
    pub fn before(&self, key: usize) -> Option<usize>
        requires { is_in key self.now.queue ≡ true }
        ensures { IsPreviousIn self.now.queue key result }
    {
        self.slots[key].links.before()
    }
}
