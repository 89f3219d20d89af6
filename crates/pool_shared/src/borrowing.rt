//! A borrow, in critical sections.
ghost use Rattle.std.specs.Prelude.{◌≡◌, ℕ, Bool, true, false, None, Err, IfOk, OnOk, IfErr, IfSome, IfNone};
ghost use Rattle.pool_journal.specs.Carrying.{carries};
ghost use Rattle.pool_journal.specs.declared.record.Phase.TheVariants as phases;
ghost use Rattle.pool_journal.specs.declared.answer.Answer.TheVariants as answers;
ghost use Rattle.pool_journal.specs.declared.input.Input.TheVariants as inputs;
ghost use Rattle.pool_journal.specs.declared.input.Outcome.TheVariants as outcomes;
ghost use Rattle.pool_core.specs.Laws.{AtMostMaxTotal};
ghost use Rattle.pool_history.specs.CallerStates.{Advances};
ghost use Rattle.pool_history.specs.Answers.{IsPossibleAnswer};
ghost use Rattle.pool_lock.specs.Sections.{OwnsObject, IsPermitted, AppendsAnswer, ReturnsValue, continues_object};
ghost use Rattle.pool_shared.specs.Promises.{IsAlone};
ghost use Rattle.pool_shared.specs.Traces.{Trace, Ends};
ghost use Rattle.pool_shared.specs.TraceToResult.{IsRoomFault};
ghost use Rattle.pool_calls.specs.declared.action.End.TheVariants as ends;
ghost use Rattle.pool_calls.specs.declared.kind.Kind.TheVariants as kinds;
ghost use Rattle.pool_calls.specs.declared.stage.Stage.TheVariants as stages;
ghost use Rattle.pool_calls.specs.Table.{works, after_borrowing};
ghost use Rattle.pool_shared.specs.Stages.{asks};
ghost use Rattle.pool_shared.specs.Borrows.{BorrowsFrom, BorrowSpec, IsLentWell, IsFaultFrom, IsWhyUnready, IsFailure, IsFound, lost, taken_to};

use crate::faults::{BorrowFault, PoolFault};
use crate::lent::Lent;
use crate::pauses::Pauses;
use crate::pool::SharedPool;
use crate::spinning::lock;
use pool_history::{Caller, PoolBrand};
use pool_journal::{Answer, Cause, Input, Outcome, When};
use pool_lock::{Clock, Factory, LockedPool};
use std::sync::{MutexGuard, Wait};

/// The error of an object that was not made ready.
#[derive(Drop)]
pub(crate) enum ActivateError<E> {
    Activate(E),
    Test,
}

impl<T: Drop, E: Drop, F: Factory<T, E> + Drop, C: Clock + Drop, B: PoolBrand> SharedPool<
    T,
    E,
    F,
    C,
    B,
> {
    // Runs a critical section in which the caller continues its object. It never fails.
    #[inline(always)]
    pub(crate) fn complete<R: Wait>(&self, rt: &R, me: &mut Caller<B>, input: Input) -> Answer
        requires permitted { IsPermitted me.old input }
        requires on { continues_object input ≡ true }
        requires empty { carries input ≡ false }
        ensures advances { Advances B.settings me.old me.new }
        ensures possible_answer { IsPossibleAnswer input result }
        ensures appended { AppendsAnswer input result me.old me.new }
        ensures ends { Ends input result me.new }
    {
        match self.run_section(rt, me, input, None) {
            Ok((answer, _)) => answer,
            Err(_) => unreachable!(),
        }
    }

    // Waits until the pool has changed. If the wait is unlimited, it keeps sleeping while a borrow would have to wait,
    // so a borrower that is woken in vain appends no entry.
    fn wait<'a, R: Wait>(
        &'a self,
        rt: &R,
        locked_pool: MutexGuard<'a, LockedPool<T, E, F, B>>,
        began: u64,
    ) -> MutexGuard<'a, LockedPool<T, E, F, B>> {
        if self.settings.max_wait_millis >= 0 {
            return self.changed.sleep(rt, &self.locked_pool, locked_pool);
        }
        let mut locked_pool = locked_pool;
        let mut pauses = Pauses::new();
        for _ in rt.forever() {
            if !locked_pool.would_wait(began) {
                return locked_pool;
            }
            locked_pool = self
                .changed
                .wait(rt, &self.locked_pool, locked_pool, &mut pauses);
        }
        unreachable!()
    }

    // Asks for an object, and waits while there is none.
    fn acquire<R: Wait>(
        &self,
        rt: &R,
        me: &mut Caller<B>,
        began: u64,
    ) -> Result<(Answer, Option<T>), PoolFault>
        ensures advances { Advances B.settings me.old me.new }
        ensures found { IfOk result (λ r. IsFound r.0) }
        ensures trace { IfOk result (λ r. Trace
            B.settings (kinds.Borrow began) asks me.old me.new
            (after_borrowing r.0)) }
        ensures ends { IfOk result (λ r. Ends (inputs.Borrow began) r.0 me.new) }
        ensures returned { IfOk result (λ r. ReturnsValue F.passive r.0 None r.1) }
        ensures none { IfErr result (λ f. Trace
            B.settings (kinds.Borrow began) asks me.old me.new asks) }
        ensures refused { IfErr result (λ f.
            IsRoomFault B.settings (inputs.Borrow began) f me.new) }
    {
        let input = Input::Borrow { began };
        let mut locked_pool = lock(rt, &self.locked_pool);
        for _ in rt.forever() {
            let (answer, value) = locked_pool.step(rt, &self.cell, &self.clock, me, input, None)?;
            match answer {
                Answer::Wait => locked_pool = self.wait(rt, locked_pool, began),
                found => return Ok((found, value)),
            }
        }
        unreachable!()
    }

    // Activates a value for a holder, and tests it if that is set.
    fn activate(&self, value: &mut T) -> Result<(), ActivateError<E>>
        ensures ok { OnOk result (IsLentWell B.settings F.active F.valid value.new) }
        ensures error { IfErr result (IsWhyUnready B.settings F.from_activate) }
    {
        match self.factory.activate(value) {
            Ok(()) => {
                if self.settings.test_on_borrow && !self.factory.validate(value) {
                    Err(ActivateError::Test)
                } else {
                    Ok(())
                }
            }
            Err(fault) => Err(ActivateError::Activate(fault)),
        }
    }

    // Frees the place of a destroyed object, and notifies the waiting threads.
    pub(crate) fn free_place<R: Wait>(&self, rt: &R, me: &mut Caller<B>, id: u64)
        requires { (new : Bool) × OwnsObject me.old id phases.Destroying new }
        ensures advances { Advances B.settings me.old me.new }
        ensures appended { AppendsAnswer (inputs.Destroyed id) answers.Freed me.old me.new }
        ensures ends { Ends (inputs.Destroyed id) answers.Freed me.new }
    {
        match self.complete(rt, me, Input::Destroyed { id }) {
            Answer::Freed => self.changed.notify_all(),
            _ => unreachable!(),
        }
    }

    // Destroys the value of an object, and frees its place.
    pub(crate) fn destroy_held<R: Wait>(&self, rt: &R, me: &mut Caller<B>, id: u64, value: T)
        requires { (new : Bool) × OwnsObject me.old id phases.Destroying new }
        ensures advances { Advances B.settings me.old me.new }
        ensures appended { AppendsAnswer (inputs.Destroyed id) answers.Freed me.old me.new }
        ensures ends { Ends (inputs.Destroyed id) answers.Freed me.new }
    {
        self.factory.destroy(value);
        self.free_place(rt, me, id);
    }

    // Destroys an object that was not made ready.
    fn destroy_unready<R: Wait>(
        &self,
        rt: &R,
        me: &mut Caller<B>,
        id: u64,
        outcome: Outcome,
        value: T,
    )
        requires { (new : Bool) × OwnsObject me.old id phases.Readying new
            × IsFailure B.settings new outcome }
        ensures advances { Advances B.settings me.old me.new }
        ensures trace { (began : ℕ) (new : Bool) → IsFailure B.settings new outcome
            → Trace B.settings (kinds.Borrow began) (works id new 0) me.old me.new
            (lost new outcome) }
        ensures ends { Ends (inputs.Destroyed id) answers.Freed me.new }
    {
        match self.complete(rt, me, Input::Ready { id, outcome }) {
            Answer::Destroy => {
                self.destroy_held(rt, me, id, value);
            }
            _ => unreachable!(),
        }
    }

    // Lends a ready object.
    #[inline(always)]
    fn lend<R: Wait>(&self, rt: &R, me: &mut Caller<B>, id: u64, value: T) -> Lent<T>
        requires owns { (new : Bool) × OwnsObject me.old id phases.Readying new }
        ensures advances { Advances B.settings me.old me.new }
        ensures trace { (began : ℕ) (new : Bool) → Trace B.settings (kinds.Borrow began)
            (works id new 0) me.old me.new (stages.Ends (ends.Lent id)) }
        ensures ends { Ends (inputs.Ready id outcomes.Good) answers.Lent me.new }
        ensures lent { result ≡ record { pool = self.now.number; id = id; value = value } }
    {
        let outcome = Outcome::Good;
        match self.complete(rt, me, Input::Ready { id, outcome }) {
            Answer::Lent => Lent {
                pool: self.number,
                id,
                value,
            },
            _ => unreachable!(),
        }
    }

    // Lends an object that was idle, or destroys it.
    fn lend_taken<R: Wait>(&self, rt: &R, me: &mut Caller<B>, id: u64, value: T) -> Option<Lent<T>>
        requires owns { OwnsObject me.old id phases.Readying false }
        ensures advances { Advances B.settings me.old me.new }
        ensures trace { (began : ℕ) → Trace B.settings (kinds.Borrow began)
            (works id false 0) me.old me.new (taken_to id result) }
        ensures lent { IfSome result (λ l. (l.pool ≡ self.now.number) × (l.id ≡ id)
            × IsLentWell B.settings F.active F.valid l.value) }
        ensures ends { IfSome result (λ l. Ends
            (inputs.Ready l.id outcomes.Good) answers.Lent me.new) }
    {
        let mut value = value;
        match self.activate(&mut value) {
            Ok(()) => Some(self.lend(rt, me, id, value)),
            Err(ActivateError::Activate(_)) => {
                self.destroy_unready(rt, me, id, Outcome::ActivateFailed, value);
                None
            }
            Err(ActivateError::Test) => {
                self.destroy_unready(rt, me, id, Outcome::TestFailed, value);
                None
            }
        }
    }

    // Makes a new object, and lends it or destroys it.
    fn lend_made<R: Wait>(
        &self,
        rt: &R,
        me: &mut Caller<B>,
        id: u64,
    ) -> Result<Lent<T>, BorrowFault<E>>
        requires owns { OwnsObject me.old id phases.Readying true }
        ensures advances { Advances B.settings me.old me.new }
        ensures spec { (began : ℕ) → BorrowsFrom B.settings self.now.number began
            (works id true 0) result me.old me.new }
        ensures lent { IfOk result (λ l. IsLentWell B.settings F.active F.valid l.value) }
        ensures fault { IfErr result (IsFaultFrom F.from_make F.from_activate) }
    {
        match self.factory.make(id) {
            Ok(made) => self.lend_new(rt, me, id, made),
            Err(fault) => {
                let outcome = Outcome::MakeFailed;
                match self.complete(rt, me, Input::Ready { id, outcome }) {
                    Answer::Freed => {
                        self.changed.notify_all();
                        Err(BorrowFault::MakeFailed(fault))
                    }
                    _ => unreachable!(),
                }
            }
        }
    }

    // Lends the value that was made for a new object, or destroys it.
    fn lend_new<R: Wait>(
        &self,
        rt: &R,
        me: &mut Caller<B>,
        id: u64,
        made: T,
    ) -> Result<Lent<T>, BorrowFault<E>>
        requires owns { OwnsObject me.old id phases.Readying true }
        ensures advances { Advances B.settings me.old me.new }
        ensures spec { (began : ℕ) → BorrowsFrom B.settings self.now.number began
            (works id true 0) result me.old me.new }
        ensures lent { IfOk result (λ l. IsLentWell B.settings F.active F.valid l.value) }
        ensures fault { IfErr result (IsFaultFrom F.from_make F.from_activate) }
    {
        let mut value = made;
        if self.settings.test_on_create && !self.factory.validate(&value) {
            self.destroy_unready(rt, me, id, Outcome::CreateTestFailed, value);
            return Err(BorrowFault::CreateTestFailed);
        }
        match self.activate(&mut value) {
            Ok(()) => Ok(self.lend(rt, me, id, value)),
            Err(ActivateError::Activate(fault)) => {
                self.destroy_unready(rt, me, id, Outcome::ActivateFailed, value);
                Err(BorrowFault::ActivateFailed(fault))
            }
            Err(ActivateError::Test) => {
                self.destroy_unready(rt, me, id, Outcome::TestFailed, value);
                Err(BorrowFault::BorrowTestFailed)
            }
        }
    }

    // Runs one round of a borrow. Returns `None` if an idle object was not made ready.
    fn borrow_once<R: Wait>(
        &self,
        rt: &R,
        me: &mut Caller<B>,
        began: u64,
    ) -> Option<Result<Lent<T>, BorrowFault<E>>>
        ensures advances { Advances B.settings me.old me.new }
        ensures spec { IfSome result (λ r. BorrowsFrom B.settings self.now.number began asks r
            me.old
            me.new) }
        ensures again { IfNone result (Trace
            B.settings (kinds.Borrow began) asks me.old me.new asks) }
        ensures lent { IfSome result (λ r. IfOk r
            (λ l. IsLentWell B.settings F.active F.valid l.value)) }
        ensures fault { IfSome result (λ r. IfErr r (IsFaultFrom F.from_make F.from_activate)) }
    {
        match self.acquire(rt, me, began) {
            Ok((Answer::Take(id), Some(value))) => match self.lend_taken(rt, me, id, value) {
                Some(lent) => Some(Ok(lent)),
                None => None,
            },
            Ok((Answer::Make(id), _)) => Some(self.lend_made(rt, me, id)),
            Ok((Answer::Refused(Cause::Closed), _)) => Some(Err(BorrowFault::Closed)),
            Ok((Answer::Exhausted, _)) => Some(Err(BorrowFault::Exhausted)),
            Ok((Answer::TimedOut, _)) => Some(Err(BorrowFault::TimedOut)),
            Ok(_) => unreachable!(),
            Err(fault) => Some(Err(BorrowFault::from(fault))),
        }
    }

    // Repeats rounds until one has a result, and returns it.
    fn borrow_until_result<R: Wait>(
        &self,
        rt: &R,
        me: &mut Caller<B>,
        began: u64,
    ) -> Result<Lent<T>, BorrowFault<E>>
        ensures advances { Advances B.settings me.old me.new }
        ensures spec { BorrowsFrom B.settings self.now.number began asks result me.old me.new }
        ensures lent { IfOk result (λ l. IsLentWell B.settings F.active F.valid l.value) }
        ensures fault { IfErr result (IsFaultFrom F.from_make F.from_activate) }
    {
        for _ in rt.forever() {
            match self.borrow_once(rt, me, began) {
                Some(done) => return done,
                None => {}
            }
        }
        unreachable!()
    }

    /// Lends an object: an idle one, or a new one if there is a free place. No other caller holds it, and at most
    /// `maxTotal` objects are present.
    ///
    /// # Errors
    ///
    /// `Closed`, `Exhausted` and `TimedOut`. `MakeFailed`, `CreateTestFailed`, `ActivateFailed` and `BorrowTestFailed`
    /// of a new object; its place is then free again. `JournalFull` and `OutOfMemory`.
    pub fn borrow<R: Wait>(&self, rt: &R, me: &mut Caller<B>) -> Result<Lent<T>, BorrowFault<E>>
        ensures advances { Advances B.settings me.old me.new }
        ensures spec { BorrowSpec B.settings self.now.number result me.old me.new }
        ensures alone { IfOk result (λ l. IsAlone l.id me.new) }
        ensures within { AtMostMaxTotal B.settings me.new.observed }
        ensures lent { IfOk result (λ l. IsLentWell B.settings F.active F.valid l.value) }
        ensures fault { IfErr result (IsFaultFrom F.from_make F.from_activate) }
    {
        let began = self.clock.now();
        if self.settings.remove_abandoned_on_borrow {
            self.reclaim_on(rt, me, When::Borrow)?;
        }
        self.borrow_until_result(rt, me, began)
    }
}
