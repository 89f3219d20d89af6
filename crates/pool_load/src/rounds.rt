//! The rounds of one caller: in each it borrows an object, passes the gate, and returns the object.
ghost use Rattle.std.specs.Prelude.{◌≡◌, ◌≤◌, IfOk, IfErr};
ghost use Rattle.pool_history.specs.CallerStates.{Advances};
ghost use Rattle.pool_load.specs.Rounds.{MakesRound, MakesRounds, IsNonResourceError, StopsFor, StopsRound, Stops};

use crate::gate::Gate;
use pool_engines::LoadFault;
use pool_shared::{BorrowFault, Caller, Clock, Factory, PoolBrand, ReturnFault, SharedPool};
use std::sync::Wait;

/// Passes over a refused borrow. If a borrow failed for lack of room or memory, the worker stops.
fn pass_over<E>(fault: &BorrowFault<E>) -> Result<(), LoadFault>
    ensures own { IfOk result (λ u. IsNonResourceError fault.now) }
    ensures stops { IfErr result (λ stop. StopsFor stop fault.now) }
{
    match fault {
        BorrowFault::JournalFull => Err(LoadFault::JournalFull),
        BorrowFault::OutOfMemory => Err(LoadFault::OutOfMemory),
        _ => Ok(()),
    }
}

/// Makes one round. Returns the number of refused borrows in it: 0 or 1.
fn round<
    T: Drop,
    E: Drop,
    F: Factory<T, E> + Drop,
    C: Clock + Drop,
    B: PoolBrand,
    G: Gate,
    R: Wait,
>(
    rt: &R,
    pool: &SharedPool<T, E, F, C, B>,
    gate: &G,
    me: &mut Caller<B>,
    number: u64,
) -> Result<u64, LoadFault>
    ensures most { IfOk result (λ n. n ≤ 1) }
    ensures advances { Advances B.settings me.old me.new }
    ensures spec { IfOk result (λ n. MakesRound B.settings n me.old me.new) }
    ensures stops { IfErr result (λ fault. StopsRound B.settings fault me.old me.new) }
{
    match pool.borrow(rt, me) {
        Ok(lent) => {
            gate.pass(me.number(), number);
            match pool.give_back(rt, me, lent) {
                Ok(_) => Ok(0),
                Err((ReturnFault::NotLent, _)) => Ok(0),
                Err((ReturnFault::JournalFull, _)) => Err(LoadFault::JournalFull),
                Err((ReturnFault::OutOfMemory, _)) => Err(LoadFault::OutOfMemory),
                Err((ReturnFault::ForeignObject, _)) => unreachable!(),
            }
        }
        Err(fault) => match pass_over(&fault) {
            Ok(()) => Ok(1),
            Err(stop) => Err(stop),
        },
    }
}

/// Makes rounds of a caller: in each it borrows an object, passes the gate with it, and returns it. Returns the number
/// of refused borrows, which are rounds too. The caller's entries are those of its rounds.
///
/// # Errors
///
/// `JournalFull` and `OutOfMemory`, if a critical section of a borrow or of a return failed with that error; the rounds
/// end then.
pub fn work<
    T: Drop,
    E: Drop,
    F: Factory<T, E> + Drop,
    C: Clock + Drop,
    B: PoolBrand,
    G: Gate,
    R: Wait,
>(
    rt: &R,
    pool: &SharedPool<T, E, F, C, B>,
    gate: &G,
    me: &mut Caller<B>,
    rounds: u64,
) -> Result<u64, LoadFault>
    ensures number { me.new.number ≡ me.old.number }
    ensures uncut { me.new.cut_count ≡ me.old.cut_count }
    ensures most { IfOk result (λ n. n ≤ rounds) }
    ensures rows { IfOk result (λ n. MakesRounds B.settings rounds n me.old me.new) }
    ensures stops { IfErr result (λ fault. Stops B.settings rounds fault me.old me.new) }
{
    let mut refused = 0;
    for done in 0..rounds {
        match round(rt, pool, gate, me, done) {
            Ok(more) => refused += more,
            Err(fault) => return Err(fault),
        }
    }
    Ok(refused)
}
