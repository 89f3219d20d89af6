//! An index of keys in ascending order of id: how keys are added, found and removed.
ghost use Rattle.std.specs.Prelude.{◌≡◌, ◌≢◌, ◌≤◌, ◌<◌, ◌+◌, ◌++◌, ◌∷◌, ◌==◌, ℕ, [], Some, None, OnOk, OnErr, IsSome, length, slice_get};
ghost use Rattle.sorted_index.specs.Pairs.{key_of, without, IdsBelow, IsAscending};

use crate::marks::{sweep, tidy};
use crate::pair::Pair;
use crate::positions::position_there;
use crate::reading::{pair_stored, pair_there};
use crate::stored::Stored;
use crate::walk::Walk;
use std::alloc::{AllocError, Global};
use std::marker::Model;

/// Pairs of an id and a key, in ascending order of id. A new id is above all present ones.
///
/// A pair is found in constant time if no id between it and the first was swept out, otherwise by a binary search. A
/// pair that is removed is only marked. The marked pairs are swept out together once they are more than half of all
/// stored pairs. So `find` takes at most logarithmic time. Each `push` and `remove` does too, on average over all
/// calls. At most twice as many pairs are stored as are present. Memory that was reserved is kept for later pairs.
#[derive(Drop)]
pub struct SortedIndex {
    stored: Vec<Stored>,
    gone: usize,
}

impl Model for SortedIndex {
    ghost use Rattle.std.specs.Prelude.{◌-◌};
    ghost use Rattle.std.specs.Vec.{vec_len, vec_capacity};
    ghost use Rattle.sorted_index.specs.Pairs.{Rising};
    ghost use Rattle.sorted_index.specs.Marks.{pairs_in, IsTidy};

    ghost Value = { Rising };

    ghost view = { λ a. record {
      pairs = pairs_in a.stored.items;
      spare = vec_capacity a.stored - vec_len a.stored;
    } };

    ghost invariant = { λ a. IsTidy a.stored.items a.gone };
}

impl SortedIndex {
    /// Returns an index without pairs.
    pub fn new(alloc: Global) -> Self
        ensures { result.pairs ≡ [] }
    {
        SortedIndex {
            stored: Vec::new(alloc),
            gone: 0,
        }
    }

    /// Returns the number of pairs.
    pub fn len(&self) -> usize
        ensures value { result ≡ length self.now.pairs }
        ensures ascending { IsAscending self.now.pairs }
    {
        self.stored.len() - self.gone
    }

    /// Returns whether there are no pairs.
    pub fn is_empty(&self) -> bool
        ensures { result ≡ (length self.now.pairs == 0) }
    {
        self.len() == 0
    }

    /// Returns the key under an id, if there is one.
    #[inline(always)]
    pub fn find(&self, id: u64) -> Option<usize>
        ensures value { result ≡ key_of self.now.pairs id }
        ensures ascending { IsAscending self.now.pairs }
    {
        let position = position_there(&self.stored, id)?;
        Some(self.stored[position].pair.key)
    }

    /// Returns the pair at a position, from 0, in ascending order of id, or `None` if there are no more pairs than
    /// that.
    ///
    /// If no marked pair is stored, each position takes the same time. Otherwise the call walks to the position.
    pub fn nth(&self, position: usize) -> Option<Pair>
        ensures { result ≡ slice_get self.now.pairs position }
    {
        if self.gone == 0 {
            pair_stored(&self.stored, position)
        } else {
            pair_there(&self.stored, position)
        }
    }

    /// Sweeps the marked pairs out, so that `nth` takes the same time for each position. The pairs are unchanged. There
    /// may be memory for more of them.
    pub fn sweep(&mut self)
        ensures pairs { self.new.pairs ≡ self.old.pairs }
        ensures spare { self.old.spare ≤ self.new.spare }
    {
        sweep(&mut self.stored, &mut self.gone);
    }

    /// Returns an iterator over the pairs, in ascending order of id.
    pub fn walk(&self) -> Walk<'_>
        ensures pairs { result ≡ self.now.pairs }
        ensures ascending { IsAscending self.now.pairs }
    {
        Walk::new(&self.stored)
    }

    /// Reserves memory for one more pair. If there is no memory, nothing changes.
    ///
    /// # Errors
    ///
    /// The allocation failed.
    pub fn reserve_one(&mut self) -> Result<(), AllocError>
        ensures pairs { self.new.pairs ≡ self.old.pairs }
        ensures ok { OnOk result (1 ≤ self.new.spare) }
        ensures full { OnErr result (self.old.spare ≡ 0) }
        ensures unchanged { OnErr result (self.new ≡ self.old) }
        ensures spare { self.old.spare ≤ self.new.spare }
    {
        self.stored.reserve(1)
    }

    /// Reserves memory for `count` more pairs. If there is no memory, nothing changes.
    ///
    /// # Errors
    ///
    /// The allocation failed.
    pub fn reserve(&mut self, count: usize) -> Result<(), AllocError>
        ensures pairs { self.new.pairs ≡ self.old.pairs }
        ensures ok { OnOk result (count ≤ self.new.spare) }
        ensures full { OnErr result (self.old.spare < count) }
        ensures unchanged { OnErr result (self.new ≡ self.old) }
        ensures spare { self.old.spare ≤ self.new.spare }
    {
        self.stored.reserve(count)
    }

    /// Adds a key under an id that is above all present ones, in the memory that was reserved.
    pub fn push(&mut self, id: u64, key: usize)
        requires above { IdsBelow id self.old.pairs }
        requires spare { 1 ≤ self.old.spare }
        ensures pairs { self.new.pairs ≡ self.old.pairs ++ record { id = id; key = key } ∷ [] }
        ensures found { key_of self.new.pairs id ≡ Some key }
        ensures others { (j : ℕ) → j ≢ id → key_of self.new.pairs j ≡ key_of self.old.pairs j }
        ensures spare { self.new.spare + 1 ≡ self.old.spare }
    {
        self.stored.push_reserved(Stored {
            pair: Pair { id, key },
            is_gone: false,
        });
    }

    /// Removes the pair of a present id, and returns its key.
    pub fn remove(&mut self, id: u64) -> usize
        requires { IsSome (key_of self.old.pairs id) }
        ensures value { key_of self.old.pairs id ≡ Some result }
        ensures pairs { self.new.pairs ≡ without id self.old.pairs }
        ensures gone { key_of self.new.pairs id ≡ None }
        ensures others { (j : ℕ) → j ≢ id → key_of self.new.pairs j ≡ key_of self.old.pairs j }
        ensures spare { self.old.spare ≤ self.new.spare }
    {
        match position_there(&self.stored, id) {
            Some(position) => {
                let taken = &mut self.stored[position];
                taken.is_gone = true;
                let key = taken.pair.key;
                self.gone += 1;
                tidy(&mut self.stored, &mut self.gone);
                key
            }
            None => unreachable!(),
        }
    }
}
