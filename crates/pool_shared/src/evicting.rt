//! An eviction run, in critical sections.
ghost use Rattle.std.specs.Prelude.{◌≡◌, ◌+◌, ◌<◌, false, IfOk, OnOk, IfErr, OnErr};
ghost use Rattle.pool_journal.specs.declared.record.Phase.TheVariants as phases;
ghost use Rattle.pool_history.specs.CallerStates.{Advances, IsConsistent};
ghost use Rattle.pool_lock.specs.Sections.{OwnsObject};
ghost use Rattle.pool_calls.specs.Table.{works};
ghost use Rattle.pool_shared.specs.Traces.{EndsWithOwn};
ghost use Rattle.pool_shared.specs.Evicts.{lost, goes_on, Examines, HasExamined, IsStopped, EvictsFrom, EvictSpec, IsFailedTest, IsUnfit};

use crate::faults::PoolFault;
use crate::pool::SharedPool;
use pool_history::{Caller, PoolBrand};
use pool_journal::{Answer, Cause, Input, Outcome};
use pool_lock::{Clock, Factory};
use std::sync::Wait;

/// The number of objects that an eviction run examined, and the number of these that it destroyed.
#[derive(Clone, Copy, Debug)]
pub struct EvictRun {
    pub examined: u64,
    pub destroyed: u64,
}

// The fate of an examined object.
#[derive(Clone, Copy)]
pub(crate) enum Disposition {
    Kept,
    Destroyed,
}

impl EvictRun {
    // Counts one more examined object.
    fn count_in(self, fate: Disposition) -> EvictRun
        requires examined { self.examined < u64.MAX }
        requires destroyed { self.destroyed < u64.MAX }
        ensures examined { result.examined ≡ self.examined + 1 }
        ensures destroyed { result.destroyed ≡ self.destroyed + lost fate }
    {
        let destroyed = match fate {
            Disposition::Kept => self.destroyed,
            Disposition::Destroyed => self.destroyed + 1,
        };
        EvictRun {
            examined: self.examined + 1,
            destroyed,
        }
    }
}

impl<T: Drop, E: Drop, F: Factory<T, E> + Drop, C: Clock + Drop, B: PoolBrand> SharedPool<
    T,
    E,
    F,
    C,
    B,
> {
    // Activates a value and tests it.
    fn activate_and_test(&self, value: &mut T) -> Result<(), Outcome>
        ensures ok { OnOk result (F.active value.new × F.valid value.new) }
        ensures error { IfErr result IsUnfit }
    {
        match self.factory.activate(value) {
            Ok(()) => {
                if self.factory.validate(value) {
                    Ok(())
                } else {
                    Err(Outcome::TestFailed)
                }
            }
            Err(_) => Err(Outcome::ActivateFailed),
        }
    }

    // Activates a value, tests it and passivates it.
    fn run_idle_test(&self, value: &mut T) -> Result<(), Outcome>
        ensures ok { OnOk result (F.passive value.new) }
        ensures error { IfErr result IsFailedTest }
    {
        self.activate_and_test(value)?;
        match self.factory.passivate(value) {
            Ok(()) => Ok(()),
            Err(_) => Err(Outcome::PassivateFailed),
        }
    }

    // Destroys an object that failed its test.
    fn fail_test<R: Wait>(&self, rt: &R, me: &mut Caller<B>, id: u64, outcome: Outcome, value: T)
        requires owns { (new : _) × OwnsObject me.old id phases.Testing new }
        requires outcome { IsFailedTest outcome }
        ensures advances { Advances B.settings me.old me.new }
        ensures trace { Examines B.settings (works id false) goes_on 0 1 me.old me.new }
        ensures ends { EndsWithOwn me.new }
    {
        match self.complete(rt, me, Input::Tested { id, outcome }) {
            Answer::Destroy => {
                self.destroy_held(rt, me, id, value);
            }
            _ => unreachable!(),
        }
    }

    // Makes an object that passed its test idle again if the pool is still open, and destroys it otherwise.
    fn end_idle_test<R: Wait>(&self, rt: &R, me: &mut Caller<B>, id: u64, value: T) -> Disposition
        requires owns { (new : _) × OwnsObject me.old id phases.Testing new }
        requires passive { F.passive value }
        ensures advances { Advances B.settings me.old me.new }
        ensures trace { Examines B.settings (works id false) goes_on 0 (lost result) me.old me.new }
        ensures ends { EndsWithOwn me.new }
    {
        let outcome = Outcome::Good;
        match self.run_section(rt, me, Input::Tested { id, outcome }, Some(value)) {
            Ok((Answer::Kept, _)) => {
                self.changed.notify_all();
                Disposition::Kept
            }
            Ok((Answer::Destroy, Some(value))) => {
                self.destroy_held(rt, me, id, value);
                Disposition::Destroyed
            }
            Ok(_) => unreachable!(),
            Err(_) => unreachable!(),
        }
    }

    // Tests an object.
    fn test<R: Wait>(&self, rt: &R, me: &mut Caller<B>, id: u64, value: T) -> Disposition
        requires owns { (new : _) × OwnsObject me.old id phases.Testing new }
        ensures advances { Advances B.settings me.old me.new }
        ensures trace { Examines B.settings (works id false) goes_on 0 (lost result) me.old me.new }
        ensures ends { EndsWithOwn me.new }
    {
        let mut value = value;
        match self.run_idle_test(&mut value) {
            Ok(()) => self.end_idle_test(rt, me, id, value),
            Err(outcome) => {
                self.fail_test(rt, me, id, outcome, value);
                Disposition::Destroyed
            }
        }
    }

    // Examines the next idle object, if there is one.
    fn examine_next<R: Wait>(
        &self,
        rt: &R,
        me: &mut Caller<B>,
    ) -> Result<Option<Disposition>, PoolFault>
        ensures advances { Advances B.settings me.old me.new }
        ensures trace { IfOk result (λ fate. HasExamined B.settings fate me.old me.new) }
        ensures ends { OnOk result (EndsWithOwn me.new) }
        ensures same { OnErr result (me.new.appended ≡ me.old.appended) }
        ensures refused { IfErr result (λ f. IsStopped B.settings f me.new) }
    {
        match self.run_section(rt, me, Input::EvictNext, None)? {
            (Answer::KeptIdle(_), _) => Ok(Some(Disposition::Kept)),
            (Answer::DestroyIdle(id), Some(value)) => {
                self.destroy_held(rt, me, id, value);
                Ok(Some(Disposition::Destroyed))
            }
            (Answer::Test(id), Some(value)) => Ok(Some(self.test(rt, me, id, value))),
            (Answer::Nothing, _) => Ok(None),
            _ => unreachable!(),
        }
    }

    // Examines idle objects until `count` are examined or none is left.
    fn examine<R: Wait>(
        &self,
        rt: &R,
        me: &mut Caller<B>,
        count: u64,
    ) -> Result<EvictRun, PoolFault>
        requires knows { IsConsistent B.settings me.old }
        requires ended { EndsWithOwn me.old }
        ensures advances { Advances B.settings me.old me.new }
        ensures spec { EvictsFrom B.settings (goes_on count) result me.old me.new }
    {
        let mut run = EvictRun {
            examined: 0,
            destroyed: 0,
        };
        for _taken in 0..count {
            match self.examine_next(rt, me) {
                Ok(Some(fate)) => run = run.count_in(fate),
                Ok(None) => return Ok(run),
                Err(fault) => return Err(fault),
            }
        }
        Ok(run)
    }

    /// Examines the number of idle objects that the settings specify, and continues after the one that the last run
    /// examined last. Destroys each that was idle for too long, or that fails its test if idle objects are tested.
    /// Returns the numbers of examined and destroyed objects.
    ///
    /// # Errors
    ///
    /// `Closed`, if the pool is closed; `JournalFull` and `OutOfMemory`, also in the middle: the work done before
    /// remains.
    pub fn evict<R: Wait>(&self, rt: &R, me: &mut Caller<B>) -> Result<EvictRun, PoolFault>
        ensures advances { Advances B.settings me.old me.new }
        ensures spec { EvictSpec B.settings result me.old me.new }
    {
        match self.run_section_without_value(rt, me, Input::Evict)? {
            Answer::Count(count) => self.examine(rt, me, count),
            Answer::Refused(Cause::Closed) => Err(PoolFault::Closed),
            _ => unreachable!(),
        }
    }
}
