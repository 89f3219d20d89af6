//! The check of a pool once all callers are back. A call that fails for lack of memory is tried again.

use crate::TRIES;
use crate::again::continues;
use crate::error::SeedError;
use crate::marks::{Mark, reports};
use crate::refusals::Refusals;
use crate::things::{Tally, Thing};
use pool_core::Core;
use pool_engines::{EngineFault, check};
use pool_journal::{Entry, Segment, print_entry};
use pool_settings::Settings;
use std::alloc::Global;
use std::fmt;
use std::fmt::Display;

/// The maximum length of a verdict, in bytes.
const VERDICT: usize = 256;

/// The result of the check.
#[derive(Clone, Copy)]
pub enum Verdict {
    Legal,
    Illegal,
    /// A segment does not continue those before it.
    BasesDiffer,
    /// The journal does not have the calls of a caller.
    CallsDiffer,
    /// A created object is neither idle nor destroyed, and no holder dropped it.
    ObjectsLost,
    /// An object is half-processed.
    ObjectsHeld,
}

impl Display for Verdict {
    fn fmt<W: fmt::Write>(&self, f: &mut fmt::Formatter<W>) -> fmt::Result {
        f.write_str(match self {
            Verdict::Legal => "legal",
            Verdict::Illegal => "illegal",
            Verdict::BasesDiffer => "the bases differ",
            Verdict::CallsDiffer => "the calls differ",
            Verdict::ObjectsLost => "objects are lost",
            Verdict::ObjectsHeld => "objects are held",
        })
    }
}

/// The work of a caller.
#[derive(Drop)]
pub struct Played {
    pub number: u32,
    pub marks: Vec<Mark>,
    pub forgotten: u64,
    pub refusals: Refusals,
    pub end: Result<(), SeedError>,
}

// Appends the line of an entry.
fn print(entry: &Entry, text: &mut Vec<u8>) -> Result<(), SeedError> {
    for _ in 0..TRIES {
        if print_entry(entry, text).is_ok() {
            return Ok(());
        }
    }
    Err(SeedError::Starved)
}

fn print_all(entries: &[Entry], text: &mut Vec<u8>) -> Result<(), SeedError> {
    for entry in entries {
        print(entry, text)?;
    }
    Ok(())
}

// Returns the verdict of the engine of `pool check` on a journal's text.
fn judge_text(alloc: Global, settings: Settings, text: &[u8]) -> Result<bool, SeedError> {
    let mut verdict = Vec::new(alloc);
    verdict.reserve(VERDICT)?;
    check(alloc, settings, &mut [text], &mut verdict).map_err(|fault| match fault {
        EngineFault::OutOfMemory => SeedError::OutOfMemory,
        _ => SeedError::NotJudged,
    })
}

// Returns the text of a journal with these segments and these stored entries.
fn text_of(alloc: Global, segments: &[Segment], stored: &[Entry]) -> Result<Vec<u8>, SeedError> {
    let mut text = Vec::new(alloc);
    for segment in segments {
        print_all(segment.entries.as_slice(), &mut text)?;
    }
    print_all(stored, &mut text)?;
    Ok(text)
}

// Returns whether each answer in a journal's text is the expected one for a pool with these settings.
fn is_legal(alloc: Global, settings: Settings, text: &[u8]) -> Result<bool, SeedError> {
    for _ in 0..TRIES {
        match judge_text(alloc, settings, text) {
            Err(SeedError::OutOfMemory) => {}
            judged => return judged,
        }
    }
    Err(SeedError::Starved)
}

// Returns whether a journal has the calls of each caller, in its order.
fn reports_all(segments: &[Segment], stored: &[Entry], all: &[Played]) -> bool {
    all.iter().all(|played| reports(segments, stored, played.number, &played.marks))
}

/// Checks a pool that has ended with this core, its segments, the calls of all callers, and the objects.
pub fn judge(
    alloc: Global,
    settings: Settings,
    segments: &[Segment],
    core: &Core<Thing>,
    all: &[Played],
    tally: &Tally,
) -> Result<Verdict, SeedError> {
    let mut forgotten = 0u64;
    for played in all {
        played.end?;
        forgotten = forgotten.saturating_add(played.forgotten);
    }
    let stored = core.journal();
    let counts = core.counts();
    let text = text_of(alloc, segments, stored)?;
    Ok(if !is_legal(alloc, settings, &text)? {
        Verdict::Illegal
    } else if !continues(alloc, settings, segments, core)? {
        Verdict::BasesDiffer
    } else if !reports_all(segments, stored, all) {
        Verdict::CallsDiffer
    } else if !tally.leaves(forgotten.saturating_add(counts.idle)) {
        Verdict::ObjectsLost
    } else if counts.reserved != 0 {
        Verdict::ObjectsHeld
    } else {
        Verdict::Legal
    })
}
