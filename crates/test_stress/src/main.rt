//! A test program: four threads call a shared pool at random, over a factory that fails at random.
//!
//! They also cut its journal, and store the segments. For each seed the engine of `pool check` checks the journal,
//! segments and stored entries, and a second pool takes the same steps and is cut at the same positions. The calls of
//! each thread are compared with its entries, and the objects are counted. A line has the verdict; nothing in it
//! depends on the schedule of the threads, or on which allocations fail. A call that fails for lack of memory is not
//! made again, and the journal is compared with it too. Work before and after all calls is tried again. Standard error
//! has the number of such failures by kind of call.
#![tactic(auto)]

ghost use Rattle.std.specs.Prelude.{◌≡◌};

mod again;
mod calling;
mod error;
mod judging;
mod marks;
mod refusals;
mod things;

use calling::{Manner, Player, Pool, Segments};
use error::SeedError;
use judging::{Played, Verdict, judge};
use pool_core::Core;
use pool_settings::Settings;
use pool_shared::{Caller, OpenFault, PoolBrand, UnopenedPool};
use refusals::{CALLS, Call, Refusals};
use std::alloc::Global;
use std::marker::Brand;
use std::sync::{Mutex, Wait};
use std::thread::Threads;
use std::{io, thread};
use things::{Fickle, Tally, Thing, Ticking};

const SEEDS: u64 = 20;

const CALLERS: u32 = 4;

/// The maximum number of segments that there is memory for: one for each call of the callers.
const CUTS: usize = 8_000;

/// The number of times that a call that must succeed is tried if it fails for lack of memory.
const TRIES: u32 = 10_000;

/// What a pool and its callers are to do.
#[derive(Clone, Copy)]
struct Round {
    settings: Settings,
    seed: u64,
    manner: Manner,
}

/// Returns the settings of a pool in which a borrow fails if there is no object for it.
fn refusing() -> Settings {
    Settings {
        max_total: 4,
        max_idle: 2,
        min_idle: 1,
        block_when_exhausted: false,
        test_on_borrow: true,
        test_on_create: true,
        test_on_return: true,
        test_while_idle: true,
        min_evictable_idle_millis: 40,
        num_tests_per_eviction_run: 2,
        abandoned: true,
        remove_abandoned_on_borrow: true,
        remove_abandoned_on_maintenance: true,
        remove_abandoned_timeout_millis: 200,
        ..Settings::default()
    }
}

/// Returns the settings of a pool in which such a borrow waits.
fn waiting() -> Settings {
    Settings {
        max_total: 1,
        min_idle: 1,
        lifo: false,
        test_on_borrow: true,
        test_while_idle: true,
        min_evictable_idle_millis: 40,
        soft_min_evictable_idle_millis: 20,
        num_tests_per_eviction_run: -1,
        abandoned: true,
        remove_abandoned_on_borrow: true,
        remove_abandoned_on_maintenance: true,
        remove_abandoned_timeout_millis: 60,
        ..Settings::default()
    }
}

// Makes players with these callers.
fn players_of<'a, B: PoolBrand>(
    alloc: Global,
    callers: Vec<Caller<B>>,
    seed: u64,
    manner: Manner,
    segments: &'a Segments,
) -> Result<Vec<Player<'a, B>>, SeedError> {
    let mut players = Vec::new(alloc);
    for me in callers {
        players.push(Player::new(alloc, me, seed, manner, segments)?)?;
    }
    Ok(players)
}

// Collects the players' callers and their work.
fn leave_all<B: PoolBrand>(
    players: Vec<Player<'_, B>>,
    back: &mut Vec<Caller<B>>,
    all: &mut Vec<Played>,
    refusals: &mut Refusals,
) -> Result<(), SeedError> {
    for player in players {
        let (me, played) = player.leave();
        refusals.join(&played.refusals);
        back.push(me).map_err(|_| SeedError::Starved)?;
        all.push(played).map_err(|_| SeedError::Starved)?;
    }
    Ok(())
}

// Runs all callers on a pool, collects their work, and ends the pool.
fn play_on<B: PoolBrand + Send + Sync, R: Threads + Wait + Sync>(
    rt: &R,
    pool: Pool<'_, B>,
    mut players: Vec<Player<'_, B>>,
    mut back: Vec<Caller<B>>,
    all: &mut Vec<Played>,
    refusals: &mut Refusals,
) -> Result<Core<Thing>, SeedError> {
    thread::for_each_mut(
        rt,
        players.as_mut_slice(),
        CALLERS as usize,
        &|_, player| player.play(rt, &pool),
    );
    leave_all(players, &mut back, all, refusals)?;
    pool.finish(rt, back).map_err(|_| SeedError::CallerMissing)
}

// Opens a pool, runs all callers on it, collects their work, and ends it. If an allocation of the opening fails, no
// caller runs.
fn play_all<B: PoolBrand + Send + Sync, R: Threads + Wait + Sync>(
    rt: &R,
    alloc: Global,
    unopened: UnopenedPool,
    round: &Round,
    tally: &Tally,
    segments: &Segments,
    all: &mut Vec<Played>,
    refusals: &mut Refusals,
) -> Result<Core<Thing>, SeedError>
    requires { (unopened ≡ B.table) × (round.now.settings ≡ B.settings) × (4 ≡ B.callers) }
{
    let back = Vec::with_capacity(alloc, CALLERS as usize)?;
    let things = Fickle {
        tally,
        seed: round.seed,
    };
    let clock = Ticking::new();
    let opened = Pool::<B>::open(
        rt,
        alloc,
        unopened,
        round.settings,
        round.seed,
        CALLERS,
        things,
        clock,
    );
    if let Err(OpenFault::OutOfMemory) = &opened {
        refusals.note(Call::Open);
    }
    let (pool, callers) = opened?;
    let players = players_of(alloc, callers, round.seed, round.manner, segments)?;
    play_on(rt, pool, players, back, all, refusals)
}

// Runs all callers on one pool, and checks it once it has ended.
fn play<B: PoolBrand + Send + Sync, R: Threads + Wait + Sync>(
    rt: &R,
    alloc: Global,
    unopened: UnopenedPool,
    round: &Round,
    tally: &Tally,
    refusals: &mut Refusals,
) -> Result<Verdict, SeedError>
    requires { (unopened ≡ B.table) × (round.now.settings ≡ B.settings) × (4 ≡ B.callers) }
{
    let segments: Segments = Mutex::new(Vec::with_capacity(alloc, CUTS)?);
    let mut all = Vec::with_capacity(alloc, CALLERS as usize)?;
    let core = play_all::<B, R>(
        rt, alloc, unopened, round, tally, &segments, &mut all, refusals,
    )?;
    let segments = segments.into_inner();
    judge(
        alloc,
        round.settings,
        &segments,
        &core,
        all.as_slice(),
        tally,
    )
}

// Runs all callers on one pool, on a new cell.
fn play_anew<R: Threads + Wait + Sync>(
    rt: &R,
    alloc: Global,
    round: &Round,
    refusals: &mut Refusals,
) -> Result<Verdict, SeedError> {
    let unopened = UnopenedPool::new(alloc)?;
    let tally = Tally::new();
    play::<Brand, R>(rt, alloc, unopened, round, &tally, refusals)
}

// Runs a seed. In one of three the callers wait.
fn try_seed<R: Threads + Wait + Sync>(
    rt: &R,
    alloc: Global,
    seed: u64,
    refusals: &mut Refusals,
) -> Result<Verdict, SeedError> {
    let (settings, manner) = if seed % 3 == 0 {
        (waiting(), Manner::Waiting)
    } else {
        (refusing(), Manner::Refused)
    };
    let round = Round {
        settings,
        seed,
        manner,
    };
    for _ in 0..TRIES {
        match play_anew(rt, alloc, &round, refusals) {
            Err(SeedError::OutOfMemory) => {}
            found => return found,
        }
    }
    Err(SeedError::Starved)
}

fn main(rt: HostRuntime) -> io::Result<()> {
    let mut refusals = Refusals::none();
    for seed in 1..=SEEDS {
        match try_seed(&rt, rt.alloc(), seed, &mut refusals) {
            Ok(verdict) => println!(rt; "seed {seed}: {verdict}")?,
            Err(error) => println!(rt; "seed {seed}: {error:?}")?,
        }
    }
    for call in CALLS {
        let count = refusals.of(call);
        if count > 0 {
            eprintln!(rt; "{call} {count}")?;
        }
    }
    Ok(())
}
