//! A queue of keys in ascending order of id: how keys are added at its ends, found and removed.
ghost use Rattle.std.specs.Prelude.{◌≡◌, ◌==◌, ◌≤◌, ◌<◌, ◌^◌, ◌++◌, ◌∷◌, [], IfNone, OnOk, OnErr, length};
ghost use Rattle.std.specs.Option.{option_to_list};
ghost use Rattle.sorted_index.specs.Pairs.{first_of, has_id, without, IdsAbove, IdsBelow, IsAscending};

use crate::pair::Pair;
use crate::queue_marks::{make_room, tidy};
use crate::queue_positions::position_there;
use crate::stored::Stored;
use std::alloc::{AllocError, Global};
use std::collections::VecDeque;
use std::marker::Model;

/// Pairs of an id and a key, in ascending order of id. They are added and taken at both ends.
///
/// A pair is found by a binary search, and one that is removed is only marked. Marked pairs are dropped at the ends,
/// and all of them once they are more than half of those that are stored. So each call takes at most logarithmic time,
/// on average over all calls.
#[derive(Drop)]
pub struct SortedQueue {
    stored: VecDeque<Stored>,
    gone: usize,
}

impl Model for SortedQueue {
    ghost use Rattle.std.specs.VecDeque.{deque_capacity};
    ghost use Rattle.sorted_index.specs.Pairs.{Row};
    ghost use Rattle.sorted_index.specs.Marks.{pairs_in, IsTrimmed};

    ghost Value = { Row };

    ghost view = { λ a. record {
      pairs = pairs_in a.stored.items;
      capacity = deque_capacity a.stored;
    } };

    ghost invariant = { λ a. IsTrimmed a.stored.items a.gone };
}

impl SortedQueue {
    /// Returns a queue without pairs.
    pub fn new(alloc: Global) -> Self
        ensures { result.pairs ≡ [] }
    {
        SortedQueue {
            stored: VecDeque::new(alloc),
            gone: 0,
        }
    }

    /// Returns the number of pairs.
    pub fn len(&self) -> usize
        ensures value { result ≡ length self.now.pairs }
        ensures ascending { IsAscending self.now.pairs }
        ensures within { length self.now.pairs ≤ self.now.capacity }
        ensures few { self.now.capacity < 2 ^ 63 }
    {
        self.stored.len() - self.gone
    }

    /// Returns whether there is no pair.
    #[inline(always)]
    pub fn is_empty(&self) -> bool
        ensures { result ≡ (length self.now.pairs == 0) }
    {
        self.stored.is_empty()
    }

    /// Reserves memory for `count` pairs in all. If there is no memory, nothing changes.
    ///
    /// # Errors
    ///
    /// The allocation failed.
    pub fn reserve(&mut self, count: usize) -> Result<(), AllocError>
        ensures pairs { self.new.pairs ≡ self.old.pairs }
        ensures ok { OnOk result (count ≤ self.new.capacity) }
        ensures full { OnErr result (self.old.capacity < count) }
        ensures capacity { self.old.capacity ≤ self.new.capacity }
    {
        let stored = self.stored.len();
        self.stored.reserve(count.saturating_sub(stored))
    }

    /// Returns whether an id has a pair.
    pub fn contains(&self, id: u64) -> bool
        ensures { result ≡ has_id id self.now.pairs }
    {
        position_there(&self.stored, id).is_some()
    }

    /// Returns the first pair.
    pub fn first(&self) -> Option<Pair>
        ensures { result ≡ first_of self.now.pairs }
    {
        self.stored.front().map(|first| first.pair)
    }

    /// Adds a key at the end, in the memory that was reserved.
    pub fn push_back(&mut self, id: u64, key: usize)
        requires above { IdsBelow id self.old.pairs }
        requires room { length self.old.pairs < self.old.capacity }
        ensures pairs { self.new.pairs ≡ self.old.pairs ++ record { id = id; key = key } ∷ [] }
        ensures capacity { self.new.capacity ≡ self.old.capacity }
    {
        make_room(&mut self.stored, &mut self.gone);
        self.stored.push_back_reserved(Stored {
            pair: Pair { id, key },
            is_gone: false,
        });
    }

    /// Adds a key at the start, in the memory that was reserved.
    pub fn push_front(&mut self, id: u64, key: usize)
        requires below { IdsAbove id self.old.pairs }
        requires room { length self.old.pairs < self.old.capacity }
        ensures pairs { self.new.pairs ≡ record { id = id; key = key } ∷ self.old.pairs }
        ensures capacity { self.new.capacity ≡ self.old.capacity }
    {
        make_room(&mut self.stored, &mut self.gone);
        self.stored.push_front_reserved(Stored {
            pair: Pair { id, key },
            is_gone: false,
        });
    }

    /// Removes the first pair and returns it.
    pub fn pop_front(&mut self) -> Option<Pair>
        ensures pairs { self.old.pairs ≡ option_to_list result ++ self.new.pairs }
        ensures none { IfNone result (self.old.pairs ≡ []) }
        ensures capacity { self.new.capacity ≡ self.old.capacity }
    {
        let first = self.stored.pop_front()?;
        tidy(&mut self.stored, &mut self.gone);
        Some(first.pair)
    }

    /// Removes the last pair and returns it.
    pub fn pop_back(&mut self) -> Option<Pair>
        ensures pairs { self.old.pairs ≡ self.new.pairs ++ option_to_list result }
        ensures none { IfNone result (self.old.pairs ≡ []) }
        ensures capacity { self.new.capacity ≡ self.old.capacity }
    {
        let last = self.stored.pop_back()?;
        tidy(&mut self.stored, &mut self.gone);
        Some(last.pair)
    }

    /// Removes the pair of an id, if it has one. Returns whether it had.
    pub fn remove(&mut self, id: u64) -> bool
        ensures had { result ≡ has_id id self.old.pairs }
        ensures pairs { self.new.pairs ≡ without id self.old.pairs }
        ensures capacity { self.new.capacity ≡ self.old.capacity }
    {
        match position_there(&self.stored, id) {
            Some(position) => {
                let taken = &mut self.stored[position];
                taken.is_gone = true;
                self.gone += 1;
                tidy(&mut self.stored, &mut self.gone);
                true
            }
            None => false,
        }
    }
}
