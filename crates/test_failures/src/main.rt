//! A test program: one caller makes each call of a shared pool, when the journal has memory or room for few more
//! entries.
//!
//! After each call it checks that no object is half-processed, and that each object that was lent is lent or was
//! reclaimed. After each call that failed, and at the end, it checks that a new core returns the answers of the
//! journal, cut entries included, and has the pool's counts. A call that failed for lack of memory is then made again,
//! so the output is the same whichever allocation fails. Standard error has the name of that call.
#![tactic(auto)]

ghost use Rattle.std.specs.Prelude.{◌≡◌};

mod error;
mod life;
mod parts;
mod replay;
mod things;

use error::LifeError;
use life::{End, FULL, Life, Pool};
use parts::{Notes, Part};
use pool_core::Core;
use pool_journal::{Entry, Segment};
use pool_settings::Settings;
use pool_shared::{Caller, OpenFault, PoolBrand, UnopenedPool};
use replay::{count, is_same, replay};
use std::alloc::Global;
use std::fmt::Display;
use std::marker::Brand;
use std::sync::Wait;
use std::sync::atomic::{AtomicU64, Ordering};
use std::{fmt, io};
use things::{Hands, Thing, Things};

/// The number of times that a call is tried if it fails for lack of memory.
const TRIES: u32 = 3;

/// The calls, each made in the middle of a life.
const CALLS: [Part; 14] = [
    Part::Borrow,
    Part::GiveBack,
    Part::Invalidate,
    Part::Touch,
    Part::Add,
    Part::Fill,
    Part::Evict,
    Part::Reclaim,
    Part::Maintain,
    Part::Clear,
    Part::Close,
    Part::JournalCopy,
    Part::Cut,
    Part::CutBelow,
];

/// The maximum number of entries for which memory or room is left.
const MOST_SPARE: u64 = 4;

/// A time at which an object that was lent at 0 is abandoned.
const LATE: u64 = 1_000;

/// The number that distinguishes this pool from others.
const NUMBER: u64 = 1;

/// The resource that a call lacks.
#[derive(Clone, Copy)]
enum Lack {
    Memory,
    PoolBrand,
}

impl Display for Lack {
    fn fmt<W: fmt::Write>(&self, f: &mut fmt::Formatter<W>) -> fmt::Result {
        f.write_str(match self {
            Lack::Memory => "memory",
            Lack::PoolBrand => "room",
        })
    }
}

fn settings_of(lack: Lack) -> Settings {
    Settings {
        journal_limit: match lack {
            Lack::Memory => 1_000,
            Lack::PoolBrand => FULL,
        },
        max_total: 2,
        min_idle: 2,
        abandoned: true,
        remove_abandoned_on_borrow: true,
        remove_abandoned_on_maintenance: true,
        remove_abandoned_timeout_millis: 10,
        ..Settings::default()
    }
}

// Makes the calls before the one that is tested, and sets the time at which it is made.
fn prepare<B: PoolBrand, R: Wait>(
    rt: &R,
    alloc: Global,
    pool: &Pool<B>,
    settings: Settings,
    life: &mut Life<B>,
    part: Part,
    spare: u64,
    moment: &AtomicU64,
    notes: &mut Notes,
) -> Result<(), LifeError> {
    match part {
        Part::Borrow | Part::Reclaim | Part::Maintain | Part::Touch | Part::JournalCopy => {
            life.call(rt, alloc, pool, settings, Part::Borrow, notes)?;
        }
        Part::Cut | Part::CutBelow => {
            life.call(rt, alloc, pool, settings, Part::Fill, notes)?;
            life.call(rt, alloc, pool, settings, Part::Borrow, notes)?;
        }
        Part::GiveBack | Part::Invalidate => {
            life.call(rt, alloc, pool, settings, Part::Borrow, notes)?;
            moment.store(LATE, Ordering::SeqCst);
            life.call(rt, alloc, pool, settings, Part::Reclaim, notes)?;
        }
        Part::Evict | Part::Clear => {
            life.call(rt, alloc, pool, settings, Part::Fill, notes)?;
        }
        Part::Close => {
            life.call(rt, alloc, pool, settings, Part::Close, notes)?;
        }
        _ => {}
    }
    life.warm(rt, alloc, pool, settings, part == Part::Close, spare, notes)?;
    if part != Part::Touch {
        moment.store(LATE, Ordering::SeqCst);
    }
    Ok(())
}

// Returns the number of objects that were created, by the cut entries and the stored ones.
fn count_made(
    alloc: Global,
    segment: &Option<Segment>,
    stored: &[Entry],
    notes: &mut Notes,
) -> Result<u64, LifeError> {
    let behind = count(alloc, stored, notes)?.created;
    match segment {
        Some(before) => {
            let made = count(alloc, before.entries.as_slice(), notes)?.created;
            Ok(made.saturating_add(behind))
        }
        None => Ok(behind),
    }
}

// Checks that a new core that takes the same steps has the same base and counts.
fn is_replayed(
    alloc: Global,
    settings: Settings,
    segment: &Option<Segment>,
    core: &Core<Thing>,
    notes: &mut Notes,
) -> Result<(), LifeError> {
    let again = replay(alloc, settings, segment, core.journal(), notes)?;
    if !is_same(again.base(), core.base()) {
        return Err(LifeError::BasesDiffer);
    }
    if again.counts() != core.counts() {
        return Err(LifeError::CountsDiffer);
    }
    Ok(())
}

// Checks that no object is left, and that the journal has the base, the answers, the counts and the statistics of the
// pool.
fn judge(
    alloc: Global,
    settings: Settings,
    segment: &Option<Segment>,
    core: &Core<Thing>,
    notes: &mut Notes,
) -> Result<(), LifeError> {
    is_replayed(alloc, settings, segment, core, notes)?;
    let counts = core.counts();
    let ended = counts.destroyed.saturating_add(counts.reclaimed);
    let made = count_made(alloc, segment, core.journal(), notes)?;
    if ended == counts.created && made == counts.created {
        Ok(())
    } else {
        Err(LifeError::LeftBehind)
    }
}

// Runs one life of a pool: a call with memory or room for `spare` more entries, and the end.
fn live<B: PoolBrand, R: Wait>(
    rt: &R,
    alloc: Global,
    unopened: UnopenedPool,
    settings: Settings,
    part: Part,
    spare: u64,
    notes: &mut Notes,
) -> Result<Result<End, LifeError>, OpenFault>
    requires { (unopened ≡ B.table) × (settings ≡ B.settings) × (1 ≡ B.callers) }
{
    let moment = AtomicU64::new(0);
    let hands = Hands { moment: &moment };
    let (pool, callers) = Pool::<B>::open(rt, alloc, unopened, settings, NUMBER, 1, Things, hands)?;
    Ok(live_with(
        rt, alloc, pool, callers, settings, part, spare, &moment, notes,
    ))
}

// Runs the life of a pool with its one caller.
fn live_with<B: PoolBrand, R: Wait>(
    rt: &R,
    alloc: Global,
    pool: Pool<B>,
    mut callers: Vec<Caller<B>>,
    settings: Settings,
    part: Part,
    spare: u64,
    moment: &AtomicU64,
    notes: &mut Notes,
) -> Result<End, LifeError> {
    let me = callers.pop().ok_or(LifeError::CallerMissing)?;
    let mut life = Life::new(me);
    let end = make_calls(
        rt, alloc, &pool, settings, &mut life, part, spare, moment, notes,
    );
    let (me, segment) = life.leave();
    if callers.push(me).is_err() {
        return Err(LifeError::OutOfMemory);
    }
    finish(rt, alloc, pool, callers, settings, &segment, notes)?;
    end
}

// Ends the pool, and checks its core.
fn finish<B: PoolBrand, R: Wait>(
    rt: &R,
    alloc: Global,
    pool: Pool<B>,
    callers: Vec<Caller<B>>,
    settings: Settings,
    segment: &Option<Segment>,
    notes: &mut Notes,
) -> Result<(), LifeError> {
    match pool.finish(rt, callers) {
        Ok(core) => judge(alloc, settings, segment, &core, notes),
        Err(_) => Err(LifeError::CallerMissing),
    }
}

fn make_calls<B: PoolBrand, R: Wait>(
    rt: &R,
    alloc: Global,
    pool: &Pool<B>,
    settings: Settings,
    life: &mut Life<B>,
    part: Part,
    spare: u64,
    moment: &AtomicU64,
    notes: &mut Notes,
) -> Result<End, LifeError> {
    prepare(rt, alloc, pool, settings, life, part, spare, moment, notes)?;
    let end = life.call(rt, alloc, pool, settings, part, notes)?;
    life.call(rt, alloc, pool, settings, Part::GiveBack, notes)?;
    life.call(rt, alloc, pool, settings, Part::Close, notes)?;
    Ok(end)
}

// Runs a life on a new cell. If an allocation of the opening fails, it opens the pool again.
fn try_life<R: Wait>(
    rt: &R,
    alloc: Global,
    settings: Settings,
    part: Part,
    spare: u64,
    notes: &mut Notes,
) -> Result<End, LifeError> {
    for _ in 0..TRIES {
        let Ok(unopened) = UnopenedPool::new(alloc) else {
            notes.note(Part::UnopenedPool);
            continue;
        };
        match live::<Brand, R>(rt, alloc, unopened, settings, part, spare, notes) {
            Ok(ended) => return ended,
            Err(OpenFault::CallerCount) => return Err(LifeError::WrongAnswer),
            Err(OpenFault::OutOfMemory) => notes.note(Part::Open),
        }
    }
    Err(LifeError::OutOfMemory)
}

fn main(rt: HostRuntime) -> io::Result<()> {
    for lack in [Lack::Memory, Lack::PoolBrand] {
        for part in CALLS {
            for spare in 0..=MOST_SPARE {
                let mut notes = Notes { refused: None };
                match try_life(&rt, rt.alloc(), settings_of(lack), part, spare, &mut notes) {
                    Ok(end) => println!(rt; "{part}, {lack} for {spare} more: {end}")?,
                    Err(error) => println!(rt; "{part}, {lack} for {spare} more: {error}")?,
                }
                if let Some(refused) = notes.refused {
                    eprintln!(rt; "{refused}")?;
                }
            }
        }
    }
    Ok(())
}
