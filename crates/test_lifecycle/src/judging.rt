//! The check of the journal of a life, of which a part was cut off: a file with that, and one with the rest.

use pool_core::Core;
use pool_engines::{EngineFault, check};
use pool_journal::{Entry, print_base, print_entry};
use pool_settings::Settings;
use std::alloc::{AllocError, Global};
use std::io;

/// The number of times that a check is tried if it fails for lack of memory.
const TRIES: u64 = 3;

fn print_all(entries: &[Entry], text: &mut Vec<u8>) -> Result<(), AllocError> {
    for entry in entries {
        print_entry(entry, text)?;
    }
    Ok(())
}

// Returns the text of the entries that were cut off.
fn text_before(alloc: Global, before: &[Entry]) -> Result<Vec<u8>, AllocError> {
    let mut text = Vec::new(alloc);
    print_all(before, &mut text)?;
    Ok(text)
}

// Returns the text of the base of a pool and of its entries.
fn text_of(alloc: Global, core: &Core<u64>) -> Result<Vec<u8>, AllocError> {
    let mut text = Vec::new(alloc);
    let entries = core.journal();
    print_base(core.base(), &mut text)?;
    print_all(entries, &mut text)?;
    Ok(text)
}

fn judged(
    alloc: Global,
    settings: Settings,
    before: &[Entry],
    core: &Core<u64>,
) -> Result<bool, EngineFault> {
    let (Ok(first), Ok(second)) = (text_before(alloc, before), text_of(alloc, core)) else {
        return Err(EngineFault::OutOfMemory);
    };
    let mut files = [first.as_slice(), second.as_slice()];
    check(alloc, settings, &mut files, &mut io::sink())
}

/// Returns whether the entries that were cut off and those of the pool are one legal journal. If an allocation fails, it
/// tries again.
pub fn is_legal(
    alloc: Global,
    settings: Settings,
    before: &[Entry],
    core: &Core<u64>,
) -> Result<bool, AllocError> {
    for _ in 0..TRIES {
        match judged(alloc, settings, before, core) {
            Err(EngineFault::OutOfMemory) => {}
            found => return Ok(found == Ok(true)),
        }
    }
    Err(AllocError)
}
