//! An addition to the idle queue, in critical sections.
ghost use Rattle.std.specs.Prelude.{◌≡◌, true, OnOk, IfErr};
ghost use Rattle.pool_journal.specs.declared.input.Outcome.TheVariants as outcomes;
ghost use Rattle.pool_journal.specs.declared.record.Phase.TheVariants as phases;
ghost use Rattle.pool_history.specs.CallerStates.{Advances};
ghost use Rattle.pool_lock.specs.Sections.{OwnsObject};
ghost use Rattle.pool_calls.specs.declared.stage.Stage.TheVariants as stages;
ghost use Rattle.pool_calls.specs.Table.{end_by};
ghost use Rattle.pool_shared.specs.Traces.{EndsWithOwn};
ghost use Rattle.pool_shared.specs.Adds.{shelved, ending, AddSpec, IsAddFaultFrom, IsWhyUnfit, IsFailure, IsPlaced, IsStocked};
ghost use Rattle.pool_shared.specs.Fills.{turned, idle, filling, parked_in, Stocks};

use crate::faults::{AddFault, Addition};
use crate::pool::SharedPool;
use pool_history::{Caller, PoolBrand};
use pool_journal::{Answer, Cause, Input, Outcome};
use pool_lock::{Clock, Factory};
use std::sync::Wait;

/// The error of a new object that can't become idle.
#[derive(Drop)]
pub(crate) enum PrepareError<E> {
    Test,
    Passivate(E),
}

impl<T: Drop, E: Drop, F: Factory<T, E> + Drop, C: Clock + Drop, B: PoolBrand> SharedPool<
    T,
    E,
    F,
    C,
    B,
> {
    // Makes a new value passive, after its first test if that is set.
    fn prepare(&self, value: &mut T) -> Result<(), PrepareError<E>>
        ensures tested { OnOk result (B.settings.test_on_create ≡ true → F.valid value.old) }
        ensures passive { OnOk result (F.passive value.new) }
        ensures error { IfErr result (IsWhyUnfit B.settings F.from_passivate) }
    {
        if self.settings.test_on_create && !self.factory.validate(value) {
            return Err(PrepareError::Test);
        }
        match self.factory.passivate(value) {
            Ok(()) => Ok(()),
            Err(fault) => Err(PrepareError::Passivate(fault)),
        }
    }

    // Destroys a new object that can't become idle.
    fn destroy_new<R: Wait>(&self, rt: &R, me: &mut Caller<B>, id: u64, outcome: Outcome, value: T)
        requires owns { (new : _) × OwnsObject me.old id phases.Adding new }
        requires outcome { IsFailure B.settings outcome }
        ensures advances { Advances B.settings me.old me.new }
        ensures trace { Stocks B.settings id (stages.Ends (end_by outcome))
            (stages.Ends (end_by outcome)) 0 me.old me.new }
        ensures ends { EndsWithOwn me.new }
    {
        match self.complete(rt, me, Input::Added { id, outcome }) {
            Answer::Destroy => {
                self.destroy_held(rt, me, id, value);
            }
            _ => unreachable!(),
        }
    }

    // Makes a passive new object idle if the pool is open, and destroys it otherwise.
    fn park_new<R: Wait>(&self, rt: &R, me: &mut Caller<B>, id: u64, value: T) -> Addition
        requires owns { (new : _) × OwnsObject me.old id phases.Adding new }
        requires passive { F.passive value }
        ensures advances { Advances B.settings me.old me.new }
        ensures placed { IsPlaced result }
        ensures trace { Stocks B.settings id (stages.Ends (shelved result)) (turned result)
            (idle result) me.old me.new }
        ensures ends { EndsWithOwn me.new }
    {
        let outcome = Outcome::Good;
        match self.run_section(rt, me, Input::Added { id, outcome }, Some(value)) {
            Ok((Answer::Parked, _)) => {
                self.changed.notify_all();
                Addition::Idle
            }
            Ok((Answer::Destroy, Some(value))) => {
                self.destroy_held(rt, me, id, value);
                Addition::Destroyed
            }
            Ok(_) => unreachable!(),
            Err(_) => unreachable!(),
        }
    }

    // Prepares and parks the value that was made for a new object.
    fn stock_made<R: Wait>(
        &self,
        rt: &R,
        me: &mut Caller<B>,
        id: u64,
        made: T,
    ) -> Result<Addition, AddFault<E>>
        requires owns { (new : _) × OwnsObject me.old id phases.Adding new }
        ensures advances { Advances B.settings me.old me.new }
        ensures appended { IsStocked result }
        ensures trace { Stocks B.settings id (ending result) (filling result) (parked_in result)
            me.old me.new }
        ensures ends { EndsWithOwn me.new }
        ensures fault { IfErr result (IsAddFaultFrom F.from_make F.from_passivate) }
    {
        let mut value = made;
        match self.prepare(&mut value) {
            Ok(()) => Ok(self.park_new(rt, me, id, value)),
            Err(PrepareError::Test) => {
                self.destroy_new(rt, me, id, Outcome::CreateTestFailed, value);
                Err(AddFault::CreateTestFailed)
            }
            Err(PrepareError::Passivate(fault)) => {
                self.destroy_new(rt, me, id, Outcome::PassivateFailed, value);
                Err(AddFault::PassivateFailed(fault))
            }
        }
    }

    // Makes a new object for the free place that was found, and makes it idle if it passes its checks.
    pub(crate) fn make_idle<R: Wait>(
        &self,
        rt: &R,
        me: &mut Caller<B>,
        id: u64,
    ) -> Result<Addition, AddFault<E>>
        requires owns { (new : _) × OwnsObject me.old id phases.Adding new }
        ensures advances { Advances B.settings me.old me.new }
        ensures appended { IsStocked result }
        ensures trace { Stocks B.settings id (ending result) (filling result) (parked_in result)
            me.old me.new }
        ensures ends { EndsWithOwn me.new }
        ensures fault { IfErr result (IsAddFaultFrom F.from_make F.from_passivate) }
    {
        match self.factory.make(id) {
            Ok(made) => self.stock_made(rt, me, id, made),
            Err(fault) => {
                let outcome = Outcome::MakeFailed;
                match self.complete(rt, me, Input::Added { id, outcome }) {
                    Answer::Freed => {
                        self.changed.notify_all();
                        Err(AddFault::MakeFailed(fault))
                    }
                    _ => unreachable!(),
                }
            }
        }
    }

    /// Makes an object and parks it if there is a free place. Returns `Idle`, `NoPlace` if there is none, or
    /// `Destroyed` if the pool was closed meanwhile.
    ///
    /// # Errors
    ///
    /// `Closed`. `MakeFailed`, `CreateTestFailed` and `PassivateFailed`, whichever comes first; the place is then free
    /// again. `JournalFull` and `OutOfMemory`, before an object is made.
    pub fn add<R: Wait>(&self, rt: &R, me: &mut Caller<B>) -> Result<Addition, AddFault<E>>
        ensures advances { Advances B.settings me.old me.new }
        ensures spec { AddSpec B.settings result me.old me.new }
        ensures fault { IfErr result (IsAddFaultFrom F.from_make F.from_passivate) }
    {
        match self.run_section_without_value(rt, me, Input::Add)? {
            Answer::Make(id) => self.make_idle(rt, me, id),
            Answer::NoPlace => Ok(Addition::NoPlace),
            Answer::Refused(Cause::Closed) => Err(AddFault::Closed),
            _ => unreachable!(),
        }
    }
}
