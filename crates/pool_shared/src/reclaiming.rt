//! A removal of abandoned objects, in critical sections.
ghost use Rattle.std.specs.Prelude.{◌≡◌};
ghost use Rattle.pool_history.specs.CallerStates.{Advances, IsConsistent};
ghost use Rattle.pool_shared.specs.Traces.{EndsWithOwn};
ghost use Rattle.pool_calls.specs.declared.kind.Kind.TheVariants as kinds;
ghost use Rattle.pool_shared.specs.Reclaims.{MayReclaim, Reclaims, ReclaimSpec, Removes};

use crate::faults::PoolFault;
use crate::pool::SharedPool;
use pool_history::{Caller, PoolBrand};
use pool_journal::{Answer, Input, When};
use pool_lock::{Clock, Factory};
use std::sync::Wait;

impl<T: Drop, E: Drop, F: Factory<T, E> + Drop, C: Clock + Drop, B: PoolBrand> SharedPool<
    T,
    E,
    F,
    C,
    B,
> {
    // Reclaims abandoned objects until `count` are reclaimed or none is left. Returns the number that it reclaimed.
    fn reclaim_some<R: Wait>(
        &self,
        rt: &R,
        me: &mut Caller<B>,
        count: u64,
    ) -> Result<u64, PoolFault>
        requires knows { IsConsistent B.settings me.old }
        requires ended { EndsWithOwn me.old }
        ensures advances { Advances B.settings me.old me.new }
        ensures trace { (k : kinds.the_data) → MayReclaim k
            → Reclaims B.settings k count result me.old me.new }
    {
        for taken in 0..count {
            match self.run_section_without_value(rt, me, Input::ReclaimNext)? {
                Answer::Reclaimed(_) => self.changed.notify_all(),
                Answer::Nothing => return Ok(taken),
                _ => unreachable!(),
            }
        }
        Ok(count)
    }

    // Reclaims abandoned objects, in a borrow or in maintenance. Returns their number.
    pub(crate) fn reclaim_on<R: Wait>(
        &self,
        rt: &R,
        me: &mut Caller<B>,
        on: When,
    ) -> Result<u64, PoolFault>
        ensures advances { Advances B.settings me.old me.new }
        ensures spec { Removes B.settings on result me.old me.new }
    {
        match self.run_section_without_value(rt, me, Input::Reclaim { on })? {
            Answer::Count(count) => self.reclaim_some(rt, me, count),
            _ => unreachable!(),
        }
    }

    /// Reclaims abandoned objects, if that is set for maintenance. Returns their number.
    ///
    /// # Errors
    ///
    /// `JournalFull` and `OutOfMemory`, also in the middle: the work done before remains.
    pub fn reclaim<R: Wait>(&self, rt: &R, me: &mut Caller<B>) -> Result<u64, PoolFault>
        ensures advances { Advances B.settings me.old me.new }
        ensures spec { ReclaimSpec B.settings result me.old me.new }
    {
        self.reclaim_on(rt, me, When::Maintain)
    }
}
