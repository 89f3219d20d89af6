//! The calls of one caller on a pool.
//! A call that fails for lack of memory is made again, after the state that it left was checked.

use crate::TRIES;
use crate::error::LifeError;
use crate::parts::{Notes, Part};
use crate::replay::counts_again;
use crate::things::{Hands, Thing, Things};
use pool_journal::{Entry, Segment};
use pool_settings::Settings;
use pool_shared::{
    AddFault, BorrowFault, Caller, Lent, PoolBrand, PoolFault, ReturnFault, Returned, SharedPool,
};
use std::alloc::Global;
use std::fmt;
use std::fmt::Display;
use std::sync::Wait;

pub type Pool<'a, B> = SharedPool<Thing, (), Things, Hands<'a>, B>;

/// The number of entries that a journal has memory or room for when the tested call is made.
pub const FULL: u64 = 16;

/// The result of a call.
#[derive(Clone, Copy)]
enum Outcome {
    Done,
    WantsMemory,
    WantsRoom,
    Wrong,
}

/// The final result of a call.
#[derive(Clone, Copy)]
pub enum End {
    Done,
    /// The journal had no room for it.
    Refused,
}

impl Display for End {
    fn fmt<W: fmt::Write>(&self, f: &mut fmt::Formatter<W>) -> fmt::Result {
        f.write_str(match self {
            End::Done => "done",
            End::Refused => "refused",
        })
    }
}

fn reported_of_addition<A: Drop>(reported: Result<A, AddFault<()>>) -> Outcome {
    match reported {
        Ok(_) => Outcome::Done,
        Err(AddFault::OutOfMemory) => Outcome::WantsMemory,
        Err(AddFault::JournalFull) => Outcome::WantsRoom,
        Err(_) => Outcome::Wrong,
    }
}

fn reported_of_return(fault: ReturnFault) -> Outcome {
    match fault {
        ReturnFault::OutOfMemory => Outcome::WantsMemory,
        ReturnFault::JournalFull => Outcome::WantsRoom,
        _ => Outcome::Wrong,
    }
}

fn reported_of_run<A: Drop>(reported: Result<A, PoolFault>) -> Outcome {
    match reported {
        Ok(_) => Outcome::Done,
        Err(PoolFault::OutOfMemory) => Outcome::WantsMemory,
        Err(PoolFault::JournalFull) => Outcome::WantsRoom,
        Err(PoolFault::Closed) => Outcome::Wrong,
    }
}

/// A caller with the object that it holds.
#[derive(Drop)]
pub struct Life<B: PoolBrand> {
    me: Caller<B>,
    held: Option<Lent<Thing>>,
    /// The number of objects that it borrowed and has not returned, including reclaimed ones.
    loans: u64,
    /// The segment that was cut from the journal.
    segment: Option<Segment>,
}

impl<B: PoolBrand> Life<B> {
    pub fn new(me: Caller<B>) -> Life<B> {
        Life {
            me,
            held: None,
            loans: 0,
            segment: None,
        }
    }

    /// Returns its caller, and the segment that was cut from the journal.
    pub fn leave(self) -> (Caller<B>, Option<Segment>) {
        let Life {
            me,
            held: _,
            loans: _,
            segment,
        } = self;
        (me, segment)
    }

    fn borrow<R: Wait>(&mut self, rt: &R, pool: &Pool<B>) -> Outcome {
        match pool.borrow(rt, &mut self.me) {
            Ok(lent) => {
                self.held = Some(lent);
                self.loans = self.loans.saturating_add(1);
                Outcome::Done
            }
            Err(BorrowFault::OutOfMemory) => Outcome::WantsMemory,
            Err(BorrowFault::JournalFull) => Outcome::WantsRoom,
            Err(_) => Outcome::Wrong,
        }
    }

    // Returns the result of a return or an invalidation. If it failed, the object stays with its holder.
    fn ended(&mut self, ended: Result<Returned, (ReturnFault, Lent<Thing>)>) -> Outcome {
        match ended {
            Ok(Returned::Gone) => Outcome::Done,
            Ok(_) => {
                self.loans = self.loans.saturating_sub(1);
                Outcome::Done
            }
            Err((fault, lent)) => {
                self.held = Some(lent);
                reported_of_return(fault)
            }
        }
    }

    fn give_back<R: Wait>(&mut self, rt: &R, pool: &Pool<B>) -> Outcome {
        match self.held.take() {
            Some(lent) => {
                let ended = pool.give_back(rt, &mut self.me, lent);
                self.ended(ended)
            }
            None => Outcome::Done,
        }
    }

    fn invalidate<R: Wait>(&mut self, rt: &R, pool: &Pool<B>) -> Outcome {
        match self.held.take() {
            Some(lent) => {
                let ended = pool.invalidate(rt, &mut self.me, lent);
                self.ended(ended)
            }
            None => Outcome::Done,
        }
    }

    fn touch<R: Wait>(&mut self, rt: &R, pool: &Pool<B>) -> Outcome {
        match &self.held {
            Some(lent) => match pool.touch(rt, &mut self.me, lent) {
                Ok(_) => Outcome::Done,
                Err(fault) => reported_of_return(fault),
            },
            None => Outcome::Wrong,
        }
    }

    // Cuts the journal, and checks that a cut that fails changes no count.
    fn cut<R: Wait>(&mut self, rt: &R, alloc: Global, pool: &Pool<B>) -> Outcome {
        let before = pool.counts(rt, &mut self.me);
        match pool.cut(rt, alloc, &mut self.me) {
            Ok(segment) => {
                self.segment = Some(segment);
                Outcome::Done
            }
            Err(_) if pool.counts(rt, &mut self.me) == before => Outcome::WantsMemory,
            Err(_) => Outcome::Wrong,
        }
    }

    // Cuts the journal if it has less room than `u64::MAX`, so always, and checks that a cut that fails changes no
    // count.
    fn cut_below<R: Wait>(&mut self, rt: &R, alloc: Global, pool: &Pool<B>) -> Outcome {
        let before = pool.counts(rt, &mut self.me);
        match pool.cut_below(rt, alloc, &mut self.me, u64::MAX) {
            Ok(Some(segment)) => {
                self.segment = Some(segment);
                Outcome::Done
            }
            Err(_) if pool.counts(rt, &mut self.me) == before => Outcome::WantsMemory,
            _ => Outcome::Wrong,
        }
    }

    // Makes a call once.
    fn ask<R: Wait>(&mut self, rt: &R, alloc: Global, pool: &Pool<B>, part: Part) -> Outcome {
        let me = &mut self.me;
        match part {
            Part::Borrow => self.borrow(rt, pool),
            Part::GiveBack => self.give_back(rt, pool),
            Part::Invalidate => self.invalidate(rt, pool),
            Part::Touch => self.touch(rt, pool),
            Part::Add => reported_of_addition(pool.add(rt, me)),
            Part::Fill => reported_of_addition(pool.fill(rt, me)),
            Part::Evict => reported_of_run(pool.evict(rt, me)),
            Part::Reclaim => reported_of_run(pool.reclaim(rt, me)),
            Part::Maintain => reported_of_addition(pool.maintain(rt, me)),
            Part::Clear => reported_of_run(pool.clear(rt, me)),
            Part::Close => reported_of_run(pool.close(rt, me)),
            Part::JournalCopy => match pool.journal_copy(rt, alloc, me) {
                Ok(_) => Outcome::Done,
                Err(_) => Outcome::WantsMemory,
            },
            Part::Cut => self.cut(rt, alloc, pool),
            Part::CutBelow => self.cut_below(rt, alloc, pool),
            _ => Outcome::Wrong,
        }
    }

    // Returns the stored entries.
    fn journal<R: Wait>(
        &mut self,
        rt: &R,
        alloc: Global,
        pool: &Pool<B>,
        notes: &mut Notes,
    ) -> Result<Vec<Entry>, LifeError> {
        for _ in 0..TRIES {
            match pool.journal_copy(rt, alloc, &mut self.me) {
                Ok(journal) => return Ok(journal),
                Err(_) => notes.note(Part::JournalCopy),
            }
        }
        Err(LifeError::OutOfMemory)
    }

    // Checks the state after a call: no object is half-processed, and each object that was lent is lent or was
    // reclaimed.
    fn look<R: Wait>(&mut self, rt: &R, pool: &Pool<B>) -> Result<(), LifeError> {
        let counts = pool.counts(rt, &mut self.me);
        if counts.reserved != 0 {
            return Err(LifeError::LeftBehind);
        }
        if counts.lent.saturating_add(counts.reclaimed) != self.loans {
            return Err(LifeError::TakenAway);
        }
        Ok(())
    }

    // Checks the state after a call that failed: the journal has the answers of a new core, and the pool its counts.
    fn look_back<R: Wait>(
        &mut self,
        rt: &R,
        alloc: Global,
        pool: &Pool<B>,
        settings: Settings,
        notes: &mut Notes,
    ) -> Result<(), LifeError> {
        let stored = self.journal(rt, alloc, pool, notes)?;
        let counts = counts_again(alloc, settings, &self.segment, &stored, notes)?;
        if counts == pool.counts(rt, &mut self.me) {
            Ok(())
        } else {
            Err(LifeError::CountsDiffer)
        }
    }

    /// Makes a call, again if it fails for lack of memory. Returns `Done`, or `Refused` if there is no room for it.
    pub fn call<R: Wait>(
        &mut self,
        rt: &R,
        alloc: Global,
        pool: &Pool<B>,
        settings: Settings,
        part: Part,
        notes: &mut Notes,
    ) -> Result<End, LifeError> {
        for _ in 0..TRIES {
            let reported = self.ask(rt, alloc, pool, part);
            self.look(rt, pool)?;
            match reported {
                Outcome::Done => return Ok(End::Done),
                Outcome::Wrong => return Err(LifeError::WrongAnswer),
                Outcome::WantsRoom => {
                    self.look_back(rt, alloc, pool, settings, notes)?;
                    return Ok(End::Refused);
                }
                Outcome::WantsMemory => {
                    notes.note(part);
                    self.look_back(rt, alloc, pool, settings, notes)?;
                }
            }
        }
        Err(LifeError::OutOfMemory)
    }

    /// Appends entries until the journal, with the outstanding ones, has memory or room for only `spare` more.
    pub fn warm<R: Wait>(
        &mut self,
        rt: &R,
        alloc: Global,
        pool: &Pool<B>,
        settings: Settings,
        is_closed: bool,
        spare: u64,
        notes: &mut Notes,
    ) -> Result<(), LifeError> {
        for _ in 0..FULL {
            let counts = pool.counts(rt, &mut self.me);
            let owed = u64::from(!is_closed)
                .saturating_add(counts.lent.saturating_mul(4))
                .saturating_add(counts.idle.saturating_mul(2));
            if counts.steps.saturating_add(owed).saturating_add(spare) >= FULL {
                return Ok(());
            }
            self.call(rt, alloc, pool, settings, Part::Reclaim, notes)?;
        }
        Ok(())
    }
}
