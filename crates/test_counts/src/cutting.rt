//! The counts of a pool that is cut, and opened again from its base, after each entry.

use crate::{CountError, value_of};
use pool_core::Core;
use pool_journal::{Base, Entry, Head, Phase, Record, Segment};
use pool_settings::Settings;
use pool_stats::Counts;
use std::alloc::{AllocError, Global};

/// Takes the steps of the entries on a pool that is cut, and opened again from its base, after each of them. Returns
/// its counts.
///
/// # Errors
///
/// A step fails or has another answer than the entry, a cut returns more than the one entry after the base before it,
/// or no pool opens from the base after it.
pub fn cut_counts(
    alloc: Global,
    settings: Settings,
    entries: &[Entry],
) -> Result<Counts, CountError> {
    let mut core = Core::open(alloc, settings)?;
    for entry in entries {
        go_on(alloc, settings, &mut core, entry)?;
    }
    Ok(core.counts())
}

// Replaces a pool whose journal is empty by the one that is opened after an entry.
fn go_on(
    alloc: Global,
    settings: Settings,
    core: &mut Core<u64>,
    entry: &Entry,
) -> Result<(), CountError> {
    cut_behind(alloc, core, entry)?;
    let base = reached(alloc, core)?;
    *core = opened_from(alloc, settings, base)?;
    Ok(())
}

// Takes the step of an entry, and cuts the journal: it has only this entry, after the base before it.
fn cut_behind(alloc: Global, core: &mut Core<u64>, entry: &Entry) -> Result<(), CountError> {
    let head = core.base().head();
    let records = Vec::from_slice(alloc, core.base().records.as_slice())?;
    take_step(core, entry)?;
    let segment = core.cut(alloc)?;
    if is_one_entry(&segment, head, records.as_slice(), entry) {
        Ok(())
    } else {
        Err(CountError::SegmentDiffers)
    }
}

/// Takes the step of an entry, and compares the answer with the entry's.
pub fn take_step(core: &mut Core<u64>, entry: &Entry) -> Result<(), CountError> {
    let value = value_of(entry.input);
    match core.step(entry.caller, entry.at, entry.input, value) {
        Ok((answer, _)) if answer == entry.answer => Ok(()),
        Ok(_) => Err(CountError::AnswerDiffers),
        Err(_) => Err(CountError::StepRefused),
    }
}

// Whether a segment has this base and only this entry.
fn is_one_entry(segment: &Segment, head: Head, records: &[Record], entry: &Entry) -> bool {
    segment.base.head() == head
        && segment.base.records.as_slice() == records
        && segment.entries.as_slice() == [*entry].as_slice()
}

// Returns the base of a pool that was just cut, by another cut.
fn reached(alloc: Global, core: &mut Core<u64>) -> Result<Base, CountError> {
    let segment = core.cut(alloc)?;
    Ok(segment.base)
}

// Opens a pool from the base of another, with the values that it stores.
fn opened_from(alloc: Global, settings: Settings, base: Base) -> Result<Core<u64>, CountError> {
    let values = values_of(alloc, &base)?;
    match Core::from_base(alloc, settings, base, values) {
        Ok(opened) => Ok(opened),
        Err(_) => Err(CountError::BaseRefused),
    }
}

/// Returns the values of the idle objects: each is the id.
pub fn values_of(alloc: Global, base: &Base) -> Result<Vec<(u64, u64)>, AllocError> {
    let mut values = Vec::new(alloc);
    for known in base.records.as_slice() {
        if known.phase == Phase::Idle {
            values.push((known.id, known.id))?;
        }
    }
    Ok(values)
}
