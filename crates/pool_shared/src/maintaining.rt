//! Maintenance: an eviction run, a removal and a fill.
ghost use Rattle.std.specs.Prelude.{IfErr};
ghost use Rattle.pool_history.specs.CallerStates.{Advances};
ghost use Rattle.pool_shared.specs.Adds.{IsAddFaultFrom};
ghost use Rattle.pool_shared.specs.Maintains.{MaintainSpec};

use crate::faults::AddFault;
use crate::pool::SharedPool;
use pool_history::{Caller, PoolBrand};
use pool_lock::{Clock, Factory};
use std::sync::Wait;

impl<T: Drop, E: Drop, F: Factory<T, E> + Drop, C: Clock + Drop, B: PoolBrand> SharedPool<
    T,
    E,
    F,
    C,
    B,
> {
    /// Maintains the pool: an eviction run, then a removal of abandoned objects, then a fill.
    ///
    /// # Errors
    ///
    /// The first error of the three ends it, and the work done before remains: `Closed`, `JournalFull` and
    /// `OutOfMemory` of each, and those of an object that the fill made.
    pub fn maintain<R: Wait>(&self, rt: &R, me: &mut Caller<B>) -> Result<(), AddFault<E>>
        ensures advances { Advances B.settings me.old me.new }
        ensures spec { MaintainSpec B.settings result me.old me.new }
        ensures fault { IfErr result (IsAddFaultFrom F.from_make F.from_passivate) }
    {
        self.evict(rt, me)?;
        self.reclaim(rt, me)?;
        self.fill(rt, me)?;
        Ok(())
    }
}
