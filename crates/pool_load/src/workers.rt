//! Starts a thread for each worker, waits for all of them, and collects their results.
ghost use Rattle.std.specs.Prelude.{◌≡◌, ◌≤◌, ◌<◌, ℕ, List, length, map, slice_index_or, IfOk, IfErr};
ghost use Rattle.pool_load.specs.Workers.{Works, AllWorked, IsWanting, added, total_of};

use crate::gate::Gate;
use crate::ids::IdPool;
use crate::rounds::work;
use crate::starting::Start;
use pool_engines::LoadFault;
use pool_shared::{Caller, PoolBrand};
use std::alloc::Global;
use std::snapshot::Snapshot;
use std::sync::Wait;
use std::thread;
use std::thread::{Promise, PromisedHandle, Scope, Threads};

/// The result of a worker: its caller, and the number of refused borrows or the error that stopped it.
#[derive(Drop)]
pub(crate) struct Worked<B: PoolBrand> {
    pub(crate) caller: Caller<B>,
    pub(crate) outcome: Result<u64, LoadFault>,
}

/// Promises that a caller, from its state now, makes this number of rounds.
#[derive(Drop)]
struct WorkOf<B: PoolBrand> {
    before: Snapshot<Caller<B>>,
    rounds: u64,
}

impl<B: PoolBrand> Promise<Worked<B>> for WorkOf<B> {
    ghost use Rattle.pool_load.specs.Workers.{Works};

    ghost kept_by = { λ p r. Works B.settings p.rounds r.outcome p.before.value r.caller };
}

/// The body of a worker's thread: it works if that is the signal.
fn run<B: PoolBrand, G: Gate, R: Wait>(
    rt: &R,
    pool: &IdPool<B>,
    gate: &G,
    start: &Start,
    me: Caller<B>,
    rounds: u64,
) -> Worked<B>
    ensures { Works B.settings rounds result.outcome me result.caller }
{
    let mut caller = me;
    let outcome = if start.wait(rt) {
        work(rt, pool, gate, &mut caller, rounds)
    } else {
        Err(LoadFault::NoThread)
    };
    Worked { caller, outcome }
}

fn start_one<'s, E, B: PoolBrand + Send + Sync, G: Gate, R: Threads + Wait + Sync>(
    scope: &Scope<'s, E>,
    rt: &'s R,
    pool: &'s IdPool<B>,
    gate: &'s G,
    start: &'s Start,
    me: Caller<B>,
    rounds: u64,
) -> Result<PromisedHandle<Worked<B>, WorkOf<B>>, LoadFault>
    ensures ok { IfOk result (λ h. (h.promise.before.value ≡ me) × (h.promise.rounds ≡ rounds)) }
    ensures error { IfErr result (λ fault. fault ≡ LoadFault.NoThread) }
{
    let promise = WorkOf {
        before: Snapshot::of(&me),
        rounds,
    };
    match scope.spawn_with(promise, move || run(rt, pool, gate, start, me, rounds)) {
        Ok(thread) => Ok(thread),
        Err(_) => Err(LoadFault::NoThread),
    }
}

/// Starts a thread for each caller, in their order.
fn start_all<'s, E, B: PoolBrand + Send + Sync, G: Gate, R: Threads + Wait + Sync>(
    scope: &Scope<'s, E>,
    rt: &'s R,
    alloc: Global,
    pool: &'s IdPool<B>,
    gate: &'s G,
    start: &'s Start,
    callers: Vec<Caller<B>>,
    rounds: u64,
) -> Result<Vec<PromisedHandle<Worked<B>, WorkOf<B>>>, LoadFault>
    ensures begun { IfOk result (λ v. map (λ h. h.promise.before.value) v.items ≡ callers.items) }
    ensures long { IfOk result (λ v.
        map (λ h. h.promise.rounds) v.items ≡ map (λ c. rounds) callers.items) }
    ensures error { IfErr result (λ fault. IsWanting fault) }
{
    let mut threads = Vec::new(alloc);
    for me in callers {
        match start_one(scope, rt, pool, gate, start, me, rounds) {
            Ok(thread) => {
                if threads.push(thread).is_err() {
                    return Err(LoadFault::OutOfMemory);
                }
            }
            Err(fault) => return Err(fault),
        }
    }
    Ok(threads)
}

/// Starts the workers and joins them.
fn work_in<'s, E, B: PoolBrand + Send + Sync, G: Gate, R: Threads + Wait + Sync>(
    scope: &Scope<'s, E>,
    rt: &'s R,
    alloc: Global,
    pool: &'s IdPool<B>,
    gate: &'s G,
    start: &'s Start,
    callers: Vec<Caller<B>>,
    rounds: u64,
) -> Result<Vec<Worked<B>>, LoadFault>
    ensures ok { IfOk result (λ v. AllWorked B.settings rounds callers.items
        (map (λ w. w.caller) v.items) (map (λ w. w.outcome) v.items)) }
    ensures error { IfErr result (λ fault. IsWanting fault) }
{
    let started = start_all(scope, rt, alloc, pool, gate, start, callers, rounds);
    start.give(rt, started.is_ok());
    match started {
        Ok(threads) => match thread::join_promised(rt, threads) {
            Ok(all) => Ok(all),
            Err(_) => Err(LoadFault::OutOfMemory),
        },
        Err(fault) => Err(fault),
    }
}

/// Lets each caller work in its own thread, and waits until all are finished.
///
/// # Errors
///
/// `NoThread`, if the system did not create a thread: then no worker has begun. `OutOfMemory`, before the workers begin
/// or after they have finished.
pub(crate) fn work_all<B: PoolBrand + Send + Sync, G: Gate, R: Threads + Wait + Sync>(
    rt: &R,
    alloc: Global,
    pool: &IdPool<B>,
    gate: &G,
    callers: Vec<Caller<B>>,
    rounds: u64,
) -> Result<Vec<Worked<B>>, LoadFault>
    ensures ok { IfOk result (λ v. AllWorked B.settings rounds callers.items
        (map (λ w. w.caller) v.items) (map (λ w. w.outcome) v.items)) }
    ensures error { IfErr result (λ fault. IsWanting fault) }
{
    let start = Start::new();
    let shared = &start;
    thread::scope(
        thread::scope_env(),
        rt,
        move |scope| -> Result<Vec<Worked<B>>, LoadFault>
            ensures ok { IfOk result (λ v. AllWorked B.settings rounds callers.items
                (map (λ w. w.caller) v.items) (map (λ w. w.outcome) v.items)) }
            ensures error { IfErr result (λ fault. IsWanting fault) }
        { work_in(scope, rt, alloc, pool, gate, shared, callers, rounds) },
    )
}

/// Returns the sum of two numbers of refused borrows, or the first error.
fn add(total: Result<u64, LoadFault>, more: Result<u64, LoadFault>) -> Result<u64, LoadFault>
    requires total { IfOk total (λ n. n ≤ 1023000000) }
    requires more { IfOk more (λ n. n ≤ 1000000) }
    ensures sum { result ≡ added total more }
{
    match total {
        Ok(refused) => match more {
            Ok(more) => Ok(refused + more),
            Err(fault) => Err(fault),
        },
        Err(fault) => Err(fault),
    }
}

/// Returns the number of refused borrows of all workers, or the error of the first that has one, and their callers.
///
/// # Errors
///
/// `OutOfMemory`.
pub(crate) fn collect_all<B: PoolBrand>(
    alloc: Global,
    workers: Vec<Worked<B>>,
) -> Result<(Result<u64, LoadFault>, Vec<Caller<B>>), LoadFault>
    requires bounded { length workers.items ≤ 1023 }
    requires each { (i : ℕ) (d : _) → i < length workers.items
        → IfOk (slice_index_or workers.items i d).outcome (λ n. n ≤ 1000000) }
    ensures callers { IfOk result (λ r. r.1.items ≡ map (λ w. w.caller) workers.items) }
    ensures outcome { IfOk result (λ r. r.0 ≡ total_of (map (λ w. w.outcome) workers.items)) }
    ensures error { IfErr result (λ fault. IsWanting fault) }
{
    let mut callers = Vec::new(alloc);
    let mut total = Ok(0);
    for worker in workers {
        let Worked { caller, outcome } = worker;
        total = add(total, outcome);
        if callers.push(caller).is_err() {
            return Err(LoadFault::OutOfMemory);
        }
    }
    Ok((total, callers))
}
