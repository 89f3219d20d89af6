//! An invalidation, in critical sections.
ghost use Rattle.std.specs.Prelude.{◌≡◌, IfErr};
ghost use Rattle.pool_history.specs.CallerStates.{Advances};
ghost use Rattle.pool_shared.specs.Invalidates.{InvalidateSpec};

use crate::faults::{ReturnFault, Returned};
use crate::lent::Lent;
use crate::pool::SharedPool;
use pool_history::{Caller, PoolBrand};
use pool_journal::{Answer, Cause, Input};
use pool_lock::{Clock, Factory};
use std::sync::Wait;

impl<T: Drop, E: Drop, F: Factory<T, E> + Drop, C: Clock + Drop, B: PoolBrand> SharedPool<
    T,
    E,
    F,
    C,
    B,
> {
    /// Invalidates a lent object that can't be used any more: the pool destroys it, and never parks it. Returns
    /// `Destroyed`, or `Gone` if the object was reclaimed before.
    ///
    /// # Errors
    ///
    /// The call returns the object with the error: `ForeignObject` if it is of another pool, and no entry is appended;
    /// `NotLent`; and, only if it isn't lent any more, `JournalFull` and `OutOfMemory`.
    pub fn invalidate<R: Wait>(
        &self,
        rt: &R,
        me: &mut Caller<B>,
        lent: Lent<T>,
    ) -> Result<Returned, (ReturnFault, Lent<T>)>
        ensures advances { Advances B.settings me.old me.new }
        ensures spec { InvalidateSpec B.settings self.now.number lent result me.old me.new }
        ensures returns_argument { IfErr result (λ r. r.1 ≡ lent) }
    {
        let _ = &me.pass;
        if lent.pool != self.number {
            return Err((ReturnFault::ForeignObject, lent));
        }
        match self.run_section(rt, me, Input::Invalidate { id: lent.id }, None) {
            Ok((Answer::Destroy, _)) => {
                let Lent { pool: _, id, value } = lent;
                self.destroy_held(rt, me, id, value);
                Ok(Returned::Destroyed)
            }
            Ok((Answer::Gone, _)) => {
                let Lent {
                    pool: _,
                    id: _,
                    value,
                } = lent;
                self.factory.destroy(value);
                Ok(Returned::Gone)
            }
            Ok((Answer::Refused(Cause::NotLent), _)) => Err((ReturnFault::NotLent, lent)),
            Ok(_) => unreachable!(),
            Err(fault) => Err((ReturnFault::from(fault), lent)),
        }
    }
}
