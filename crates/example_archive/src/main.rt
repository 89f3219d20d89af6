//! An example: four workers share a long-running pool. `example_archive FOLDER` fills a folder that has no archive yet.
//!
//! The pool's journal has room for 300 entries, and the workers append some eight thousand. So now and then, and when
//! the journal is full, each worker tests whether little room is left. If so, it cuts the journal, and writes the
//! segment to a file of its own, beside the pool's settings. In the folder, `pool check archive.toml segment-*` checks
//! all files as one journal.
#![tactic(auto)]

ghost use Rattle.std.specs.Prelude.{◌≡◌};

mod archive;
mod clock;
mod connections;
mod error;
mod working;

use archive::Archive;
use clock::Uptime;
use connections::{Connection, Connector};
use error::WorkError;
use pool_core::Core;
use pool_settings::Settings;
use pool_shared::{Caller, PoolBrand, SharedPool, UnopenedPool};
use std::alloc::Global;
use std::convert::Infallible;
use std::marker::Brand;
use std::sync::Wait;
use std::thread::Threads;
use std::{env, thread};
use working::{Tally, work};

/// The settings of the pool.
const SETTINGS: &str = "journalLimit = 300
maxTotal = 3
minIdle = 1
testOnBorrow = true
";

/// The number that distinguishes this pool from others.
const NUMBER: u64 = 1;

const WORKERS: u32 = 4;

/// The pool of connections.
type Connections<B> = SharedPool<Connection, Infallible, Connector, Uptime, B>;

/// The results of the work.
#[derive(Clone, Copy)]
struct Outcome {
    answered: u64,
    still_open: u64,
    entries: u64,
    archived: u64,
}

// Runs all workers, each in its own thread, and collects their callers and results.
fn work_all<B: PoolBrand + Send + Sync, R: Threads + Wait + Sync>(
    rt: &R,
    archive: &Archive<'_>,
    pool: &Connections<B>,
    workers: Vec<Caller<B>>,
    back: &mut Vec<Caller<B>>,
) -> Result<Tally, WorkError> {
    let mut all = Tally {
        answered: 0,
        archived: 0,
    };
    for worked in thread::map_vec(rt, workers, &|me| work(rt, archive, pool, me))? {
        let (caller, tally) = worked?;
        back.push(caller)?;
        all.answered = all.answered.saturating_add(tally.answered);
        all.archived = all.archived.saturating_add(tally.archived);
    }
    Ok(all)
}

// Closes the pool, and archives the entries that are left. Returns their number.
fn close<B: PoolBrand, R: Wait>(
    rt: &R,
    archive: &Archive<'_>,
    pool: &Connections<B>,
    keeper: &mut Caller<B>,
) -> Result<u64, WorkError> {
    pool.close(rt, keeper).map_err(|_| WorkError::NotClosed)?;
    archive.take_in_below(rt, pool, keeper, u64::MAX)
}

// Adds the entries that were archived at the end to the results of the work.
fn outcome_of(core: &Core<Connection>, tally: Tally, rest: u64) -> Outcome {
    let counts = core.counts();
    Outcome {
        answered: tally.answered,
        still_open: counts.idle + counts.lent + counts.reserved,
        entries: counts.steps,
        archived: tally.archived.saturating_add(rest),
    }
}

// Runs the pool, with a caller for each worker and one for the keeper. The type `B` names this one pool, so the
// compiler knows that the callers are those of this pool.
fn live<B: PoolBrand + Send + Sync, R: Threads + Wait + Sync>(
    rt: &R,
    alloc: Global,
    unopened: UnopenedPool,
    settings: Settings,
    uptime: Uptime,
    archive: &Archive<'_>,
) -> Result<Outcome, WorkError>
    requires { (unopened ≡ B.table) × (settings ≡ B.settings) × (5 ≡ B.callers) }
{
    let (pool, mut callers) = Connections::<B>::open(
        rt,
        alloc,
        unopened,
        settings,
        NUMBER,
        WORKERS + 1,
        Connector,
        uptime,
    )
    .map_err(|_| WorkError::NotOpened)?;
    let mut keeper = callers.pop().ok_or(WorkError::CallerMissing)?;
    let mut back = Vec::new(alloc);
    let tally = work_all(rt, archive, &pool, callers, &mut back)?;
    let rest = close(rt, archive, &pool, &mut keeper)?;
    back.push(keeper)?;
    let core = pool.finish(rt, back).map_err(|_| WorkError::CallerMissing)?;
    Ok(outcome_of(&core, tally, rest))
}

fn main(rt: HostRuntime) -> Result<(), WorkError> {
    let settings = Settings::from_text(rt.alloc(), SETTINGS).map_err(|_| WorkError::Settings)?;
    let words: Vec<String> = env::args(&rt)
        .map_err(|_| WorkError::NoFolder)?
        .collect(rt.alloc())?;
    let [_, folder] = words.as_slice() else {
        return Err(WorkError::NoFolder);
    };
    let archive = Archive::new(&rt, folder.as_str());
    archive.write_new("archive.toml", SETTINGS.as_bytes())?;
    let unopened = UnopenedPool::new(rt.alloc())?;
    let uptime = Uptime::start(&rt)?;
    let outcome = live::<Brand, _>(&rt, rt.alloc(), unopened, settings, uptime, &archive)?;
    println!(rt; "requests answered: {}", outcome.answered)?;
    println!(rt; "connections still open: {}", outcome.still_open)?;
    let missing = outcome.entries.abs_diff(outcome.archived);
    println!(rt; "entries that no file has: {missing}")?;
    Ok(())
}
