//! A return, in critical sections.
ghost use Rattle.std.specs.Prelude.{◌≡◌, ◌≢◌, false, Ok, IfErr};
ghost use Rattle.pool_journal.specs.declared.answer.Answer.TheVariants as answers;
ghost use Rattle.pool_journal.specs.declared.input.Input.TheVariants as inputs;
ghost use Rattle.pool_journal.specs.declared.input.Outcome.TheVariants as outcomes;
ghost use Rattle.pool_journal.specs.declared.record.Phase.TheVariants as phases;
ghost use Rattle.pool_history.specs.CallerStates.{Advances};
ghost use Rattle.pool_lock.specs.Sections.{OwnsObject};
ghost use Rattle.pool_shared.specs.Traces.{Trace, EndsWithOwn};
ghost use Rattle.pool_calls.specs.declared.kind.Kind.TheVariants as kinds;
ghost use Rattle.pool_calls.specs.Table.{works};
ghost use Rattle.pool_shared.specs.Returns.{done, IsPossibleOutcome, ReturnSpec};
ghost use Rattle.pool_shared.specs.declared.faults.Returned.TheVariants as returned;

use crate::faults::{ReturnFault, Returned};
use crate::lent::Lent;
use crate::pool::SharedPool;
use pool_history::{Caller, PoolBrand};
use pool_journal::{Answer, Cause, Input, Outcome};
use pool_lock::{Clock, Factory};
use std::sync::Wait;

impl<T: Drop, E: Drop, F: Factory<T, E> + Drop, C: Clock + Drop, B: PoolBrand> SharedPool<
    T,
    E,
    F,
    C,
    B,
> {
    // Destroys a returned object that did not pass its check.
    fn destroy_returned<R: Wait>(
        &self,
        rt: &R,
        me: &mut Caller<B>,
        id: u64,
        outcome: Outcome,
        value: T,
    )
        requires owns { (new : _) × OwnsObject me.old id phases.Returning new }
        requires outcome { (outcome ≢ outcomes.Good) × IsPossibleOutcome B.settings id outcome }
        ensures advances { Advances B.settings me.old me.new }
        ensures trace { Trace B.settings (kinds.Return id) (works id false 0) me.old me.new
            (done id returned.Destroyed) }
        ensures ends { EndsWithOwn me.new }
    {
        match self.complete(rt, me, Input::Park { id, outcome }) {
            Answer::Destroy => {
                self.destroy_held(rt, me, id, value);
            }
            _ => unreachable!(),
        }
    }

    // Makes a passive object idle if there is room for it, and destroys it otherwise.
    fn park<R: Wait>(&self, rt: &R, me: &mut Caller<B>, id: u64, value: T) -> Returned
        requires owns { (new : _) × OwnsObject me.old id phases.Returning new }
        requires passive { F.passive value }
        ensures advances { Advances B.settings me.old me.new }
        ensures trace { Trace B.settings (kinds.Return id) (works id false 0) me.old me.new
            (done id result) }
        ensures ends { EndsWithOwn me.new }
    {
        let outcome = Outcome::Good;
        match self.run_section(rt, me, Input::Park { id, outcome }, Some(value)) {
            Ok((Answer::Parked, _)) => {
                self.changed.notify_all();
                Returned::Parked
            }
            Ok((Answer::Destroy, Some(value))) => {
                self.destroy_held(rt, me, id, value);
                Returned::Destroyed
            }
            Ok(_) => unreachable!(),
            Err(_) => unreachable!(),
        }
    }

    // Tests a returned object, passivates it, and has it parked.
    fn test_and_park<R: Wait>(&self, rt: &R, me: &mut Caller<B>, id: u64, value: T) -> Returned
        requires owns { (new : _) × OwnsObject me.old id phases.Returning new }
        ensures advances { Advances B.settings me.old me.new }
        ensures trace { Trace B.settings (kinds.Return id) (works id false 0) me.old me.new
            (done id result) }
        ensures ends { EndsWithOwn me.new }
    {
        let mut value = value;
        if self.settings.test_on_return && !self.factory.validate(&value) {
            self.destroy_returned(rt, me, id, Outcome::TestFailed, value);
            return Returned::Destroyed;
        }
        match self.factory.passivate(&mut value) {
            Ok(()) => self.park(rt, me, id, value),
            Err(_) => {
                self.destroy_returned(rt, me, id, Outcome::PassivateFailed, value);
                Returned::Destroyed
            }
        }
    }

    /// Returns a lent object to the pool. The result is `Parked`, `Destroyed`, or `Gone` if it was reclaimed before.
    ///
    /// # Errors
    ///
    /// The call returns the object with the error: `ForeignObject` if it is of another pool, and no entry is appended;
    /// `NotLent`; and, only if it isn't lent any more, `JournalFull` and `OutOfMemory`.
    pub fn give_back<R: Wait>(
        &self,
        rt: &R,
        me: &mut Caller<B>,
        lent: Lent<T>,
    ) -> Result<Returned, (ReturnFault, Lent<T>)>
        ensures advances { Advances B.settings me.old me.new }
        ensures spec { ReturnSpec B.settings self.now.number lent result me.old me.new }
        ensures returns_argument { IfErr result (λ r. r.1 ≡ lent) }
    {
        let _ = &me.pass;
        if lent.pool != self.number {
            return Err((ReturnFault::ForeignObject, lent));
        }
        match self.run_section(rt, me, Input::GiveBack { id: lent.id }, None) {
            Ok((Answer::Check, _)) => {
                let Lent { pool: _, id, value } = lent;
                Ok(self.test_and_park(rt, me, id, value))
            }
            Ok((Answer::Gone, _)) => {
                let Lent {
                    pool: _,
                    id: _,
                    value,
                } = lent;
                self.factory.destroy(value);
                Ok(Returned::Gone)
            }
            Ok((Answer::Refused(Cause::NotLent), _)) => Err((ReturnFault::NotLent, lent)),
            Ok(_) => unreachable!(),
            Err(fault) => Err((ReturnFault::from(fault), lent)),
        }
    }
}
