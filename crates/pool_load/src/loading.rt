//! Runs many workers at once on one pool, closes it, and reports the statistics of its history.
ghost use Rattle.std.specs.Prelude.{◌≡◌, ◌+◌, ◌*◌, ◌≤◌, ℕ, length, Result, IfOk, IfErr, OnOk};
ghost use Rattle.pool_history.specs.CallerStates.{Advances};
ghost use Rattle.pool_shared.specs.declared.faults.PoolFault.{PoolFault};
ghost use Rattle.pool_shared.specs.Clears.{CloseSpec};
ghost use Rattle.pool_stats.specs.Statistics.{statistics_of};
ghost use Rattle.pool_load.specs.Workers.{IsWanting, WorksAndCloses};
ghost use Rattle.pool_load.specs.Loads.{IsInRange, IsLoad, StopsLoad, IsLoadFault};

use crate::gate::Gate;
use crate::ids::{IdPool, Ids, Ticks};
use crate::workers::{collect_all, work_all};
use pool_core::Core;
use pool_engines::LoadFault;
use pool_settings::Settings;
use pool_shared::{Caller, OpenFault, PoolBrand, UnopenedPool};
use pool_stats::Statistics;
use std::alloc::Global;
use std::marker::Brand;
use std::sync::Wait;
use std::thread::Threads;

/// The greatest number of workers.
const MOST_WORKERS: u32 = 1_023;

/// The greatest number of rounds of a worker.
const MOST_ROUNDS: u64 = 1_000_000;

/// The result of a load.
#[derive(Clone, Copy, Debug, PartialEq, Eq)]
pub struct LoadReport {
    /// The number of refused borrows of all workers.
    pub refused: u64,
    /// The statistics of the whole history.
    pub stats: Statistics,
}

/// Opens a pool with these settings, runs `workers` workers on it that make `rounds` rounds each, each in its own
/// thread, and then closes it, which destroys the idle objects. In a round a worker borrows an object, passes the gate
/// with it, and returns it; a borrow that is refused is a round too. All threads are joined before the call returns.
///
/// The value of an object is its id, the factory never fails, and the clock counts its readings.
///
/// # Errors
///
/// `WorkerCount` and `RoundCount` exactly if a number is out of its range, in this order. `JournalFull` if a worker
/// stopped in one of its rounds, since the entry of its next critical section did not fit. `NoThread` if the system did
/// not create a thread: then no worker has begun. `OutOfMemory`.
pub fn load<G: Gate, R: Threads + Wait + Sync>(
    rt: &R,
    alloc: Global,
    settings: Settings,
    workers: u32,
    rounds: u64,
    gate: &G,
) -> Result<LoadReport, LoadFault>
    ensures range { OnOk result (IsInRange workers rounds) }
    ensures load { IfOk result (λ r. IsLoad settings workers rounds r.refused r.stats) }
    ensures rounds { IfOk result (λ r. r.stats.borrowed + r.refused ≡ workers * rounds) }
    ensures fault { IfErr result (IsLoadFault settings workers rounds) }
{
    if workers == 0 || workers > MOST_WORKERS {
        return Err(LoadFault::WorkerCount);
    }
    if rounds == 0 || rounds > MOST_ROUNDS {
        return Err(LoadFault::RoundCount);
    }
    match UnopenedPool::new(alloc) {
        Ok(pool) => load_on::<Brand, G, R>(rt, alloc, pool, settings, workers, rounds, gate),
        Err(_) => Err(LoadFault::OutOfMemory),
    }
}

/// Runs the load of a pool on the cell of `unopened`.
fn load_on<B: PoolBrand + Send + Sync, G: Gate, R: Threads + Wait + Sync>(
    rt: &R,
    alloc: Global,
    unopened: UnopenedPool,
    settings: Settings,
    workers: u32,
    rounds: u64,
    gate: &G,
) -> Result<LoadReport, LoadFault>
    requires room { (unopened ≡ B.table) × (settings ≡ B.settings) × (workers + 1 ≡ B.callers) }
    requires range { IsInRange workers rounds }
    ensures load { IfOk result (λ r. IsLoad settings workers rounds r.refused r.stats) }
    ensures stops { IfErr result (StopsLoad settings workers rounds) }
{
    let callers = workers + 1;
    let (pool, mut callers) = match IdPool::<B>::open(
        rt,
        alloc,
        unopened,
        settings,
        0,
        callers,
        Ids,
        Ticks::new(),
    ) {
        Ok(opened) => opened,
        Err(OpenFault::CallerCount) => unreachable!(),
        Err(OpenFault::OutOfMemory) => return Err(LoadFault::OutOfMemory),
    };
    let Some(last) = callers.pop() else {
        unreachable!()
    };
    let (outcome, all) = work_and_close::<B, G, R>(rt, alloc, &pool, gate, callers, last, rounds)?;
    let Ok(core) = pool.finish(rt, all) else {
        unreachable!()
    };
    match outcome {
        Ok(refused) => report(alloc, core, refused),
        Err(fault) => Err(fault),
    }
}

/// Lets each caller work in its own thread, and then the last one close the pool. Returns the number of refused borrows
/// or the error of a worker, and all callers.
fn work_and_close<B: PoolBrand + Send + Sync, G: Gate, R: Threads + Wait + Sync>(
    rt: &R,
    alloc: Global,
    pool: &IdPool<B>,
    gate: &G,
    callers: Vec<Caller<B>>,
    last: Caller<B>,
    rounds: u64,
) -> Result<(Result<u64, LoadFault>, Vec<Caller<B>>), LoadFault>
    requires bounded { length callers.items ≤ 1023 }
    requires rounds { rounds ≤ 1000000 }
    ensures closed { IfOk result (λ r. WorksAndCloses B.settings rounds callers.items last
        r.0 r.1.items) }
    ensures error { IfErr result (λ fault. IsWanting fault) }
{
    let worked = work_all::<B, G, R>(rt, alloc, pool, gate, callers, rounds)?;
    let (outcome, mut all) = collect_all::<B>(alloc, worked)?;
    let mut last = last;
    close::<B, R>(rt, pool, &mut last);
    match all.push(last) {
        Ok(()) => Ok((outcome, all)),
        Err(_) => Err(LoadFault::OutOfMemory),
    }
}

/// Lets the last caller close the pool. The history of the load shows that this does not fail: no worker closes it.
fn close<B: PoolBrand, R: Wait>(rt: &R, pool: &IdPool<B>, last: &mut Caller<B>)
    ensures advances { Advances B.settings last.old last.new }
    ensures spec { (result : Result ℕ PoolFault) × CloseSpec B.settings result last.old last.new }
{
    let _ = pool.close(rt, last);
}

/// Returns the statistics of a pool's journal, with the number of refused borrows.
fn report(alloc: Global, core: Core<u64>, refused: u64) -> Result<LoadReport, LoadFault>
    ensures report { IfOk result (λ r. (r.refused ≡ refused)
        × (r.stats ≡ statistics_of core.journal)) }
    ensures error { IfErr result (λ fault. fault ≡ LoadFault.OutOfMemory) }
{
    match Statistics::of(alloc, core.journal()) {
        Ok(stats) => Ok(LoadReport { refused, stats }),
        Err(_) => Err(LoadFault::OutOfMemory),
    }
}
