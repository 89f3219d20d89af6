//! An example: four servers answer requests over a pool of three connections.
//!
//! During the day one connection breaks, and one server forgets the connection that it borrowed. In the evening the
//! keeper maintains the pool, which reclaims the forgotten one, and closes it. Then the program checks the journal.
//!
//! docs/rattle.md explains how to copy the crate under another name.
#![tactic(auto)]

ghost use Rattle.std.specs.Prelude.{◌≡◌};

mod connections;
mod error;
mod judging;
mod serving;

use connections::{Connection, Connector, Unreachable};
use error::DayError;
use judging::is_legal;
use pool_core::Core;
use pool_journal::{Entry, Input};
use pool_settings::Settings;
use pool_shared::{Caller, Clock, PoolBrand, SharedPool, UnopenedPool};
use serving::serve;
use std::alloc::Global;
use std::marker::Brand;
use std::sync::Wait;
use std::sync::atomic::{AtomicU64, Ordering};
use std::thread;
use std::thread::Threads;

/// The settings of the pool.
const SETTINGS: &str = "maxTotal = 3
minIdle = 1
testOnBorrow = true

[abandoned]
removeAbandonedOnMaintenance = true
removeAbandonedTimeoutMillis = 60000
";

/// The number that distinguishes this pool from others.
const NUMBER: u64 = 1;

const SERVERS: u32 = 4;

const MORNING: u64 = 0;

/// The time ten hours later, in milliseconds.
const EVENING: u64 = 36_000_000;

/// A clock that is set by hand.
#[derive(Drop)]
struct Watch<'a> {
    moment: &'a AtomicU64,
}

impl Clock for Watch<'_> {
    fn now(&self) -> u64 {
        self.moment.load(Ordering::SeqCst)
    }
}

/// The pool of connections.
type Connections<'a, B> = SharedPool<Connection, Unreachable, Connector, Watch<'a>, B>;

/// The pool's core at the end of a day, and the number of answered requests.
#[derive(Drop)]
struct Evening {
    core: Core<Connection>,
    answered: u64,
}

// Runs all servers, each in its own thread. Returns their callers, and the number of answered requests.
fn serve_all<B: PoolBrand + Send + Sync, R: Threads + Wait + Sync>(
    rt: &R,
    alloc: Global,
    pool: &Connections<B>,
    callers: Vec<Caller<B>>,
) -> Result<(Vec<Caller<B>>, u64), DayError> {
    let mut back = Vec::new(alloc);
    let mut answered = 0u64;
    for served in thread::map_vec(rt, callers, &|me| serve(rt, pool, me))? {
        let (caller, count) = served?;
        back.push(caller)?;
        answered = answered.saturating_add(count);
    }
    Ok((back, answered))
}

// Runs a day of the pool, with a caller for each server and one for the keeper. The type `B` names this one pool, so
// the compiler knows that the callers are those of this pool.
fn day<B: PoolBrand + Send + Sync, R: Threads + Wait + Sync>(
    rt: &R,
    alloc: Global,
    unopened: UnopenedPool,
    settings: Settings,
    moment: &AtomicU64,
) -> Result<Evening, DayError>
    requires { (unopened ≡ B.table) × (settings ≡ B.settings) × (5 ≡ B.callers) }
{
    let watch = Watch { moment };
    let (pool, mut callers) = Connections::<B>::open(
        rt,
        alloc,
        unopened,
        settings,
        NUMBER,
        SERVERS + 1,
        Connector,
        watch,
    )?;
    let mut keeper = callers.pop().ok_or(DayError::CallerMissing)?;

    let (mut back, answered) = serve_all(rt, alloc, &pool, callers)?;
    moment.store(EVENING, Ordering::SeqCst);
    pool.maintain(rt, &mut keeper)?;
    pool.close(rt, &mut keeper)?;
    back.push(keeper)?;
    let core = pool.finish(rt, back)?;
    Ok(Evening { core, answered })
}

// Returns the number of connections that their holders found broken.
fn broken(journal: &[Entry]) -> usize {
    journal
        .iter()
        .filter(|entry| matches!(entry.input, Input::Invalidate { id: _ }))
        .count()
}

// Prints the results of the day, and whether its journal is legal.
fn report(rt: &HostRuntime, settings: Settings, evening: &Evening) -> Result<(), DayError> {
    let journal = evening.core.journal();
    let counts = evening.core.counts();
    let still_open = counts.idle + counts.lent + counts.reserved;
    println!(rt; "requests answered: {}", evening.answered)?;
    println!(rt; "connections broken: {}", broken(journal))?;
    println!(rt; "connections forgotten: {}", counts.reclaimed)?;
    println!(rt; "connections still open: {still_open}")?;
    let verdict = if is_legal(rt.alloc(), settings, journal)? {
        "legal"
    } else {
        "illegal"
    };
    println!(rt; "the journal: {verdict}")?;
    Ok(())
}

fn main(rt: HostRuntime) -> Result<(), DayError> {
    let unopened = UnopenedPool::new(rt.alloc())?;
    let settings = Settings::from_text(rt.alloc(), SETTINGS)?;
    let moment = AtomicU64::new(MORNING);
    let evening = day::<Brand, _>(&rt, rt.alloc(), unopened, settings, &moment)?;
    report(&rt, settings, &evening)
}
