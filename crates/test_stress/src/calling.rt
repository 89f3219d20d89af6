//! A caller that makes random calls, and marks them.

use crate::TRIES;
use crate::error::SeedError;
use crate::judging::Played;
use crate::marks::{Mark, reports};
use crate::refusals::{Call, Refusals};
use crate::things::{Fickle, Thing, Ticking};
use pool_journal::{Entry, Segment};
use pool_shared::{
    AddFault, BorrowFault, Caller, Lent, PoolBrand, PoolFault, ReturnFault, Returned, SharedPool,
};
use rand::RngExt;
use rand_pcg::Pcg32;
use std::alloc::{AllocError, Global};
use std::sync::{Mutex, Wait};

pub type Pool<'a, B> = SharedPool<Thing, (), Fickle<'a>, Ticking, B>;

/// The number of calls that each caller makes.
const CALLS: u32 = 2_000;

/// The maximum number of marks of a caller: three for each call, one for each object that it still holds, and one for
/// the close.
const MARKS: usize = 8_001;

/// The segments that were cut, in their order. While a caller holds the lock, no other caller cuts.
pub type Segments = Mutex<Vec<Segment>>;

/// The behaviour of callers if the pool has no object for them.
#[derive(Clone, Copy, PartialEq, Eq)]
pub enum Manner {
    /// Their borrows fail. They may hold several objects, and forget some.
    Refused,
    /// They wait. They hold at most one object, and forget none.
    Waiting,
}

/// A caller with the objects that it holds, and its work.
#[derive(Drop)]
pub struct Player<'a, B: PoolBrand> {
    me: Caller<B>,
    marks: Vec<Mark>,
    forgotten: u64,
    refusals: Refusals,
    end: Result<(), SeedError>,
    alloc: Global,
    generator: Pcg32,
    manner: Manner,
    held: Vec<Lent<Thing>>,
    segments: &'a Segments,
}

impl<'a, B: PoolBrand> Player<'a, B> {
    /// Makes a player. It allocates all memory of its own at once.
    pub fn new(
        alloc: Global,
        me: Caller<B>,
        seed: u64,
        manner: Manner,
        segments: &'a Segments,
    ) -> Result<Player<'a, B>, AllocError> {
        let generator = Pcg32::new(seed, u64::from(me.number()));
        let mut marks = Vec::new(alloc);
        marks.reserve(MARKS)?;
        let mut held = Vec::new(alloc);
        held.reserve(CALLS as usize)?;
        Ok(Player {
            me,
            marks,
            forgotten: 0,
            refusals: Refusals::none(),
            end: Ok(()),
            alloc,
            generator,
            manner,
            held,
            segments,
        })
    }

    fn mark(&mut self, mark: Mark) -> Result<(), SeedError> {
        self.marks.push(mark)?;
        Ok(())
    }

    fn copy<R: Wait>(&mut self, rt: &R, pool: &Pool<B>) -> Result<Vec<Entry>, SeedError> {
        for _ in 0..TRIES {
            if let Ok(journal) = pool.journal_copy(rt, self.alloc, &mut self.me) {
                return Ok(journal);
            }
            self.refusals.note(Call::JournalCopy);
        }
        Err(SeedError::Starved)
    }

    // Marks the first steps of a call that failed for lack of memory, as far as the journal has them.
    fn find_begun(
        &mut self,
        segments: &[Segment],
        stored: &[Entry],
        begun: &[Mark],
    ) -> Result<(), SeedError> {
        let number = self.me.number();
        if reports(segments, stored, number, &self.marks) {
            return Ok(());
        }
        for mark in begun {
            self.mark(*mark)?;
            if reports(segments, stored, number, &self.marks) {
                return Ok(());
            }
        }
        Err(SeedError::Untold)
    }

    // Checks the journal after a call that failed for lack of memory: it has all earlier calls, and of this call at
    // most its first steps.
    fn look_back<R: Wait>(
        &mut self,
        rt: &R,
        pool: &Pool<B>,
        call: Call,
        begun: &[Mark],
    ) -> Result<(), SeedError> {
        self.refusals.note(call);
        let segments = self.segments.lock(rt);
        let stored = self.copy(rt, pool)?;
        self.find_begun(&segments, &stored, begun)
    }

    // Takes one of the objects that it holds, at random.
    fn pick(&mut self) -> Option<Lent<Thing>> {
        let count = self.held.len();
        if count == 0 {
            return None;
        }
        let place = self.generator.random_range(0..count);
        Some(self.held.swap_remove(place))
    }

    fn borrow<R: Wait>(&mut self, rt: &R, pool: &Pool<B>) -> Result<(), SeedError> {
        if self.manner == Manner::Waiting && !self.held.is_empty() {
            return Ok(());
        }
        match pool.borrow(rt, &mut self.me) {
            Ok(lent) => {
                self.mark(Mark::Borrows)?;
                self.mark(Mark::Lent(lent.id()))?;
                self.held.push(lent)?;
                Ok(())
            }
            Err(BorrowFault::Closed | BorrowFault::Exhausted | BorrowFault::TimedOut) => {
                self.mark(Mark::Borrows)?;
                self.mark(Mark::Denied)
            }
            Err(BorrowFault::JournalFull) => Err(SeedError::Stopped),
            Err(BorrowFault::OutOfMemory) => self.look_back(
                rt,
                pool,
                Call::Borrow,
                &[Mark::Borrows],
            ),
            Err(_) => self.mark(Mark::Borrows),
        }
    }

    // Marks the result of a return or an invalidation. The caller keeps the object if an allocation failed.
    fn ended<R: Wait>(
        &mut self,
        rt: &R,
        pool: &Pool<B>,
        call: Call,
        mark: Mark,
        ended: Result<Returned, (ReturnFault, Lent<Thing>)>,
    ) -> Result<(), SeedError> {
        match ended {
            Ok(_) => self.mark(mark),
            Err((ReturnFault::OutOfMemory, lent)) => {
                self.held.push(lent)?;
                self.look_back(rt, pool, call, &[])
            }
            Err(_) => Err(SeedError::Stopped),
        }
    }

    fn give_back<R: Wait>(
        &mut self,
        rt: &R,
        pool: &Pool<B>,
        lent: Lent<Thing>,
    ) -> Result<(), SeedError> {
        let mark = Mark::GivesBack(lent.id());
        let ended = pool.give_back(rt, &mut self.me, lent);
        self.ended(rt, pool, Call::GiveBack, mark, ended)
    }

    fn invalidate<R: Wait>(
        &mut self,
        rt: &R,
        pool: &Pool<B>,
        lent: Lent<Thing>,
    ) -> Result<(), SeedError> {
        let mark = Mark::Invalidates(lent.id());
        let ended = pool.invalidate(rt, &mut self.me, lent);
        self.ended(rt, pool, Call::Invalidate, mark, ended)
    }

    fn touch<R: Wait>(
        &mut self,
        rt: &R,
        pool: &Pool<B>,
        lent: Lent<Thing>,
    ) -> Result<(), SeedError> {
        let mark = Mark::Uses(lent.id());
        let touched = pool.touch(rt, &mut self.me, &lent);
        self.held.push(lent)?;
        match touched {
            Ok(_) => self.mark(mark),
            Err(ReturnFault::OutOfMemory) => self.look_back(rt, pool, Call::Touch, &[]),
            Err(_) => Err(SeedError::Stopped),
        }
    }

    fn forget(&mut self, lent: Lent<Thing>) -> Result<(), SeedError> {
        if self.manner == Manner::Waiting {
            self.held.push(lent)?;
        } else {
            self.forgotten = self.forgotten.saturating_add(1);
            drop(lent);
        }
        Ok(())
    }

    fn add<R: Wait>(&mut self, rt: &R, pool: &Pool<B>) -> Result<(), SeedError> {
        match pool.add(rt, &mut self.me) {
            Err(AddFault::JournalFull) => Err(SeedError::Stopped),
            Err(AddFault::OutOfMemory) => self.look_back(rt, pool, Call::Add, &[]),
            _ => self.mark(Mark::Adds),
        }
    }

    fn fill<R: Wait>(&mut self, rt: &R, pool: &Pool<B>) -> Result<(), SeedError> {
        match pool.fill(rt, &mut self.me) {
            Ok(_) => self.mark(Mark::Filled),
            Err(AddFault::JournalFull | AddFault::Closed) => Err(SeedError::Stopped),
            Err(AddFault::OutOfMemory) => self.look_back(rt, pool, Call::Fill, &[]),
            Err(_) => Ok(()),
        }
    }

    fn evict<R: Wait>(&mut self, rt: &R, pool: &Pool<B>) -> Result<(), SeedError> {
        match pool.evict(rt, &mut self.me) {
            Ok(_) | Err(PoolFault::Closed) => self.mark(Mark::Evicts),
            Err(PoolFault::JournalFull) => Err(SeedError::Stopped),
            Err(PoolFault::OutOfMemory) => self.look_back(rt, pool, Call::Evict, &[Mark::Evicts]),
        }
    }

    // Maintains the pool: an eviction run, a reclaim and a fill.
    fn maintain<R: Wait>(&mut self, rt: &R, pool: &Pool<B>) -> Result<(), SeedError> {
        match pool.maintain(rt, &mut self.me) {
            Ok(()) => {
                self.mark(Mark::Evicts)?;
                self.mark(Mark::Reclaims)?;
                self.mark(Mark::Filled)
            }
            Err(AddFault::Closed) => self.mark(Mark::Evicts),
            Err(AddFault::JournalFull) => Err(SeedError::Stopped),
            Err(AddFault::OutOfMemory) => {
                self.look_back(rt, pool, Call::Maintain, &[Mark::Evicts, Mark::Reclaims])
            }
            Err(_) => {
                self.mark(Mark::Evicts)?;
                self.mark(Mark::Reclaims)
            }
        }
    }

    // Marks the result of a reclaim or a clear, which has one mark.
    fn sweep<R: Wait>(
        &mut self,
        rt: &R,
        pool: &Pool<B>,
        call: Call,
        mark: Mark,
        swept: Result<u64, PoolFault>,
    ) -> Result<(), SeedError> {
        match swept {
            Ok(_) => self.mark(mark),
            Err(PoolFault::OutOfMemory) => self.look_back(rt, pool, call, &[mark]),
            Err(_) => Err(SeedError::Stopped),
        }
    }

    fn reclaim<R: Wait>(&mut self, rt: &R, pool: &Pool<B>) -> Result<(), SeedError> {
        let swept = pool.reclaim(rt, &mut self.me);
        self.sweep(rt, pool, Call::Reclaim, Mark::Reclaims, swept)
    }

    fn clear<R: Wait>(&mut self, rt: &R, pool: &Pool<B>) -> Result<(), SeedError> {
        let swept = pool.clear(rt, &mut self.me);
        self.sweep(rt, pool, Call::Clear, Mark::Clears, swept)
    }

    fn close<R: Wait>(&mut self, rt: &R, pool: &Pool<B>) -> Result<(), SeedError> {
        match pool.close(rt, &mut self.me) {
            Ok(_) => self.mark(Mark::Closes),
            Err(PoolFault::OutOfMemory) => self.look_back(rt, pool, Call::Close, &[]),
            Err(_) => Err(SeedError::Stopped),
        }
    }

    // Cuts the journal, and stores the segment. Returns false if an allocation failed.
    fn keep_cut<R: Wait>(&mut self, rt: &R, pool: &Pool<B>) -> Result<bool, SeedError> {
        let mut segments = self.segments.lock(rt);
        match pool.cut(rt, self.alloc, &mut self.me) {
            Ok(segment) => {
                segments.push(segment)?;
                Ok(true)
            }
            Err(_) => Ok(false),
        }
    }

    fn cut<R: Wait>(&mut self, rt: &R, pool: &Pool<B>) -> Result<(), SeedError> {
        if self.keep_cut(rt, pool)? {
            Ok(())
        } else {
            self.look_back(rt, pool, Call::Cut, &[])
        }
    }

    // Makes a call with an object that it holds. If it holds none, it borrows one.
    fn call_with_one<R: Wait>(&mut self, rt: &R, pool: &Pool<B>) -> Result<(), SeedError> {
        let Some(lent) = self.pick() else {
            return self.borrow(rt, pool);
        };
        match self.generator.random_range(0..16) {
            0..=10 => self.give_back(rt, pool, lent),
            11..=12 => self.invalidate(rt, pool, lent),
            13..=14 => self.touch(rt, pool, lent),
            _ => self.forget(lent),
        }
    }

    // Makes a rare call. Now and then it closes the pool.
    fn call_seldom<R: Wait>(&mut self, rt: &R, pool: &Pool<B>) -> Result<(), SeedError> {
        match self.generator.random_range(0..3_000) {
            0 => self.close(rt, pool),
            1..=500 => self.clear(rt, pool),
            501..=1_000 => self.cut(rt, pool),
            _ => {
                let _counts = pool.counts(rt, &mut self.me);
                Ok(())
            }
        }
    }

    fn call<R: Wait>(&mut self, rt: &R, pool: &Pool<B>) -> Result<(), SeedError> {
        match self.generator.random_range(0..24) {
            0..=7 => self.borrow(rt, pool),
            8..=16 => self.call_with_one(rt, pool),
            17 => self.add(rt, pool),
            18 => self.fill(rt, pool),
            19 => self.evict(rt, pool),
            20 => self.reclaim(rt, pool),
            21 => self.maintain(rt, pool),
            _ => self.call_seldom(rt, pool),
        }
    }

    // Returns all objects that it holds to the pool.
    fn give_all_back<R: Wait>(&mut self, rt: &R, pool: &Pool<B>) -> Result<(), SeedError> {
        for _ in 0..self.held.len().saturating_add(TRIES as usize) {
            match self.held.pop() {
                Some(lent) => self.give_back(rt, pool, lent)?,
                None => return Ok(()),
            }
        }
        if self.held.is_empty() {
            Ok(())
        } else {
            Err(SeedError::Starved)
        }
    }

    // Makes all its calls, closes the pool in one of four runs, and returns the objects that it holds.
    fn make_calls<R: Wait>(&mut self, rt: &R, pool: &Pool<B>) -> Result<(), SeedError> {
        for _ in 0..CALLS {
            self.call(rt, pool)?;
        }
        if self.generator.random_range(0..4) == 0 {
            self.close(rt, pool)?;
        }
        self.give_all_back(rt, pool)
    }

    /// Makes all calls. If one fails its check, it closes the pool, so that no caller waits for an object that it
    /// holds.
    pub fn play<R: Wait>(&mut self, rt: &R, pool: &Pool<B>) {
        self.end = self.make_calls(rt, pool);
        if self.end.is_err() {
            let _closed = pool.close(rt, &mut self.me);
        }
    }

    /// Returns its caller and its work.
    pub fn leave(self) -> (Caller<B>, Played) {
        let Player {
            me,
            marks,
            forgotten,
            refusals,
            end,
            alloc: _,
            generator: _,
            manner: _,
            held: _,
            segments: _,
        } = self;
        let played = Played {
            number: me.number(),
            marks,
            forgotten,
            refusals,
            end,
        };
        (me, played)
    }
}
