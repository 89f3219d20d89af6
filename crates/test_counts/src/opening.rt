//! Cuts a pool once and opens one from the base of a segment, up to the call that is asked for.

use crate::cutting::{take_step, values_of};
use crate::{CountError, entries_of};
use pool_core::Core;
use pool_journal::{Base, Entry, print_base, read_base};
use pool_settings::Settings;
use pool_stats::Counts;
use std::alloc::Global;

/// The calls from a pool that is cut to one that is opened from the base of a segment and takes its steps, in their
/// order.
#[derive(Clone, Copy)]
pub enum Call {
    /// `Core::step`, with the entries of a journal.
    Step,
    /// `Core::cut`.
    Cut,
    /// `read_base`, of the segment's text.
    Read,
    /// `print_base`, of the base after the cut.
    Print,
    /// `Core::from_base`, of the base that was read.
    Open,
    /// `Core::step`, with the entries of the segment.
    GoOn,
}

impl Call {
    /// Returns the call that a word names.
    pub fn named(word: &str) -> Option<Call> {
        match word {
            "step" => Some(Call::Step),
            "cut" => Some(Call::Cut),
            "read" => Some(Call::Read),
            "print" => Some(Call::Print),
            "open" => Some(Call::Open),
            "goon" => Some(Call::GoOn),
            _ => None,
        }
    }
}

/// Makes the calls up to `last`, and returns the counts of the last pool. `text` is that of the segment.
///
/// # Errors
///
/// A step fails or has another answer than its entry, the cut returns other entries, the base after them differs from
/// the one that is read from the segment or from its lines in the segment, or no pool opens from it.
pub fn opened_counts(
    alloc: Global,
    settings: Settings,
    entries: &[Entry],
    text: &[u8],
    last: Call,
) -> Result<Counts, CountError> {
    let mut core = Core::open(alloc, settings)?;
    take_steps(&mut core, entries)?;
    if !matches!(last, Call::Step) {
        take_cut(alloc, &mut core, entries)?;
    }
    match last {
        Call::Step | Call::Cut => Ok(core.counts()),
        _ => counts_behind_cut(alloc, settings, &core, text, last),
    }
}

// Makes the calls after the cut, and returns the counts of the last pool.
fn counts_behind_cut(
    alloc: Global,
    settings: Settings,
    core: &Core<u64>,
    text: &[u8],
    last: Call,
) -> Result<Counts, CountError> {
    let (base, length) = read(alloc, core, text)?;
    if !matches!(last, Call::Read) {
        print(alloc, core, text, length)?;
    }
    if matches!(last, Call::Read | Call::Print) {
        return Ok(core.counts());
    }
    let mut opened = open(alloc, settings, base)?;
    if matches!(last, Call::GoOn) {
        go_on(alloc, &mut opened, text, length)?;
    }
    Ok(opened.counts())
}

fn take_steps(core: &mut Core<u64>, entries: &[Entry]) -> Result<(), CountError> {
    for entry in entries {
        take_step(core, entry)?;
    }
    Ok(())
}

// Cuts the journal, and compares the entries that are cut with these.
fn take_cut(alloc: Global, core: &mut Core<u64>, entries: &[Entry]) -> Result<(), CountError> {
    let segment = core.cut(alloc)?;
    if segment.entries.as_slice() == entries {
        Ok(())
    } else {
        Err(CountError::SegmentDiffers)
    }
}

// Reads the base at the start of a text. Returns it with the length of its lines, if it is the base of the pool.
fn read(alloc: Global, core: &Core<u64>, text: &[u8]) -> Result<(Base, usize), CountError> {
    let (base, length) = read_base(alloc, text).map_err(|_| CountError::JournalUnread)?;
    let due = core.base();
    if base.head() == due.head() && base.records.as_slice() == due.records.as_slice() {
        Ok((base, length))
    } else {
        Err(CountError::BaseDiffers)
    }
}

// Prints the base of a pool whose journal is empty, and compares it with the first `length` bytes of a text.
fn print(alloc: Global, core: &Core<u64>, text: &[u8], length: usize) -> Result<(), CountError> {
    if !core.journal().is_empty() {
        return Err(CountError::SegmentDiffers);
    }
    let mut printed = Vec::new(alloc);
    print_base(core.base(), &mut printed)?;
    if text.get(..length) == Some(printed.as_slice()) {
        Ok(())
    } else {
        Err(CountError::BaseDiffers)
    }
}

// Opens a pool from a base. The value of each idle object is its id.
fn open(alloc: Global, settings: Settings, base: Base) -> Result<Core<u64>, CountError> {
    let values = values_of(alloc, &base)?;
    Core::from_base(alloc, settings, base, values).map_err(|_| CountError::BaseRefused)
}

// Takes the steps of the entries in a text after its first `length` bytes.
fn go_on(
    alloc: Global,
    core: &mut Core<u64>,
    text: &[u8],
    length: usize,
) -> Result<(), CountError> {
    let Some(lines) = text.get(length..) else {
        return Err(CountError::JournalUnread);
    };
    let entries = entries_of(alloc, lines)?;
    take_steps(core, &entries)
}
