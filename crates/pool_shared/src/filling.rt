//! A fill of the idle queue, in critical sections.
ghost use Rattle.std.specs.Prelude.{◌≡◌, ◌+◌, ◌<◌, ◌^◌, length, IfOk, OnOk, IfErr};
ghost use Rattle.pool_history.specs.CallerStates.{Advances};
ghost use Rattle.pool_shared.specs.Adds.{IsAddFaultFrom};
ghost use Rattle.pool_shared.specs.Fills.{FillStep, FillSpec, parked_by};

use crate::faults::{AddFault, Addition};
use crate::pool::SharedPool;
use pool_history::{Caller, PoolBrand};
use pool_journal::{Answer, Input};
use pool_lock::{Clock, Factory};
use std::sync::Wait;

impl<T: Drop, E: Drop, F: Factory<T, E> + Drop, C: Clock + Drop, B: PoolBrand> SharedPool<
    T,
    E,
    F,
    C,
    B,
> {
    // Takes one turn of a fill. Returns `NoPlace` if no place is free or no object is missing.
    fn add_missing<R: Wait>(&self, rt: &R, me: &mut Caller<B>) -> Result<Addition, AddFault<E>>
        ensures advances { Advances B.settings me.old me.new }
        ensures turn { FillStep B.settings result me.old me.new }
        ensures bounded { OnOk result (length me.old.appended + 1 < 2 ^ 64) }
        ensures fault { IfErr result (IsAddFaultFrom F.from_make F.from_passivate) }
    {
        match self.run_section_without_value(rt, me, Input::Fill)? {
            Answer::Make(id) => self.make_idle(rt, me, id),
            Answer::Enough => Ok(Addition::NoPlace),
            Answer::NoPlace => Ok(Addition::NoPlace),
            _ => unreachable!(),
        }
    }

    /// Makes objects and parks them, until the number that the settings require is idle, or on its way there, or there
    /// is no free place. Returns the number of objects that it parked. On a closed pool that is 0.
    ///
    /// # Errors
    ///
    /// `MakeFailed`, `CreateTestFailed` and `PassivateFailed` of the first object that fails; the place is then free
    /// again. `JournalFull` and `OutOfMemory`, between two objects. The work done before remains. It is never
    /// `Closed`.
    pub fn fill<R: Wait>(&self, rt: &R, me: &mut Caller<B>) -> Result<u64, AddFault<E>>
        ensures advances { Advances B.settings me.old me.new }
        ensures spec { FillSpec B.settings result me.old me.new }
        ensures parked { IfOk result (λ n. parked_by me.new ≡ parked_by me.old + n) }
        ensures fault { IfErr result (IsAddFaultFrom F.from_make F.from_passivate) }
    {
        let mut parked = 0u64;
        for _ in rt.forever() {
            match self.add_missing(rt, me) {
                Ok(Addition::Idle) => parked += 1,
                Ok(Addition::Destroyed) => {}
                Ok(Addition::NoPlace) => return Ok(parked),
                Err(fault) => return Err(fault),
            }
        }
        unreachable!()
    }
}
