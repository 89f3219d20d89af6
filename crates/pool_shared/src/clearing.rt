//! A clear and a close, in critical sections.
ghost use Rattle.std.specs.Prelude.{◌≡◌, ℕ, IfOk};
ghost use Rattle.pool_calls.specs.declared.kind.Kind.TheVariants as kinds;
ghost use Rattle.pool_history.specs.CallerStates.{Advances, IsConsistent};
ghost use Rattle.pool_shared.specs.Traces.{EndsWithOwn};
ghost use Rattle.pool_shared.specs.Clears.{MaySweep, Sweeps, ClearSpec, CloseSpec};

use crate::faults::PoolFault;
use crate::pool::SharedPool;
use pool_history::{Caller, PoolBrand};
use pool_journal::{Answer, Input};
use pool_lock::{Clock, Factory};
use std::sync::Wait;

impl<T: Drop, E: Drop, F: Factory<T, E> + Drop, C: Clock + Drop, B: PoolBrand> SharedPool<
    T,
    E,
    F,
    C,
    B,
> {
    // Destroys idle objects until `count` are destroyed or none is left. Returns the number that it destroyed.
    fn destroy_idle<R: Wait>(
        &self,
        rt: &R,
        me: &mut Caller<B>,
        count: u64,
    ) -> Result<u64, (u64, PoolFault)>
        requires knows { IsConsistent B.settings me.old }
        requires ended { EndsWithOwn me.old }
        ensures advances { Advances B.settings me.old me.new }
        ensures trace { (k : kinds.the_data) → MaySweep k
            → Sweeps B.settings k count result me.old me.new }
        ensures ends { IfOk result (λ n. EndsWithOwn me.new) }
    {
        for taken in 0..count {
            match self.run_section(rt, me, Input::ClearNext, None) {
                Ok((Answer::DestroyIdle(id), Some(value))) => {
                    self.destroy_held(rt, me, id, value);
                }
                Ok((Answer::Nothing, _)) => return Ok(taken),
                Ok(_) => unreachable!(),
                Err(fault) => return Err((taken, PoolFault::from(fault))),
            }
        }
        Ok(count)
    }

    /// Destroys the idle objects. Returns their number.
    ///
    /// # Errors
    ///
    /// `JournalFull` and `OutOfMemory`, also in the middle: the work done before remains.
    pub fn clear<R: Wait>(&self, rt: &R, me: &mut Caller<B>) -> Result<u64, PoolFault>
        ensures advances { Advances B.settings me.old me.new }
        ensures spec { ClearSpec B.settings result me.old me.new }
    {
        match self.run_section_without_value(rt, me, Input::Clear)? {
            Answer::Count(count) => match self.destroy_idle(rt, me, count) {
                Ok(taken) => Ok(taken),
                Err((_, fault)) => Err(fault),
            },
            _ => unreachable!(),
        }
    }

    /// Closes the pool, and destroys the idle objects. Returns their number. A second close returns 0.
    ///
    /// # Errors
    ///
    /// `JournalFull` and `OutOfMemory`, only if the pool is closed already.
    pub fn close<R: Wait>(&self, rt: &R, me: &mut Caller<B>) -> Result<u64, PoolFault>
        ensures advances { Advances B.settings me.old me.new }
        ensures spec { CloseSpec B.settings result me.old me.new }
    {
        match self.run_section_without_value(rt, me, Input::Close)? {
            Answer::Count(count) => {
                self.changed.notify_all();
                match self.destroy_idle(rt, me, count) {
                    Ok(taken) => Ok(taken),
                    Err((taken, _)) => Ok(taken),
                }
            }
            Answer::Nothing => Ok(0),
            _ => unreachable!(),
        }
    }
}
