//! Cuts a pool and opens it again from its base, which is printed as text and read from it.

use pool_core::Core;
use pool_journal::{Base, LineFault, Phase, Segment, print_base, read_base};
use pool_settings::Settings;
use std::alloc::{AllocError, Global};

/// The value of each object.
pub const VALUE: u64 = 7;

/// The text before that of a base.
const FRONT: &[u8] = b"a base\n";

/// Cuts a journal, again if an allocation fails.
pub fn cut_again(alloc: Global, core: &mut Core<u64>) -> Result<Segment, AllocError> {
    match core.cut(alloc) {
        Ok(segment) => Ok(segment),
        Err(_) => core.cut(alloc),
    }
}

// Returns the values of the idle objects.
fn values_of(alloc: Global, base: &Base) -> Result<Vec<(u64, u64)>, AllocError> {
    let mut values = Vec::new(alloc);
    for known in base.records.as_slice() {
        if known.phase == Phase::Idle {
            values.push((known.id, VALUE))?;
        }
    }
    Ok(values)
}

fn values_again(alloc: Global, base: &Base) -> Result<Vec<(u64, u64)>, AllocError> {
    match values_of(alloc, base) {
        Ok(values) => Ok(values),
        Err(_) => values_of(alloc, base),
    }
}

fn is_same(one: &Base, other: &Base) -> bool {
    one.head() == other.head() && one.records.as_slice() == other.records.as_slice()
}

// Returns a new text that begins with `FRONT`.
fn front_again(alloc: Global) -> Result<Vec<u8>, AllocError> {
    match Vec::from_slice(alloc, FRONT) {
        Ok(text) => Ok(text),
        Err(_) => Vec::from_slice(alloc, FRONT),
    }
}

// Returns the text of the base of a pool, after `FRONT`. If an allocation fails, the text is unchanged, and the base is
// printed again.
fn text_again(alloc: Global, core: &Core<u64>) -> Result<Vec<u8>, AllocError> {
    let mut text = front_again(alloc)?;
    if !core.journal().is_empty() {
        return Err(AllocError);
    }
    if print_base(core.base(), &mut text).is_err() {
        if text.as_slice() != FRONT {
            return Err(AllocError);
        }
        print_base(core.base(), &mut text)?;
    }
    Ok(text)
}

// Reads the base that is a whole text, again if an allocation fails.
fn read_again(alloc: Global, text: &[u8]) -> Result<Base, AllocError> {
    let read = match read_base(alloc, text) {
        Err(LineFault::OutOfMemory) => read_base(alloc, text),
        read => read,
    };
    match read {
        Ok((base, length)) if length == text.len() => Ok(base),
        _ => Err(AllocError),
    }
}

// Returns the base of a pool that was just cut, read from its text.
fn base_again(alloc: Global, core: &Core<u64>) -> Result<Base, AllocError> {
    let text = text_again(alloc, core)?;
    let Some(lines) = text.get(FRONT.len()..) else {
        return Err(AllocError);
    };
    let base = read_again(alloc, lines)?;
    if is_same(&base, core.base()) {
        Ok(base)
    } else {
        Err(AllocError)
    }
}

/// Opens a pool from the base of one that was just cut, as it is read from its text. If an allocation fails, it tries
/// again with the base and the values that were returned.
pub fn opened_again(
    alloc: Global,
    settings: Settings,
    core: &Core<u64>,
) -> Result<Core<u64>, AllocError> {
    let base = base_again(alloc, core)?;
    let values = values_again(alloc, &base)?;
    match Core::from_base(alloc, settings, base, values) {
        Ok(opened) => Ok(opened),
        Err((_, base, values)) => {
            if !is_same(&base, core.base()) {
                return Err(AllocError);
            }
            match Core::from_base(alloc, settings, base, values) {
                Ok(opened) => Ok(opened),
                Err(_) => Err(AllocError),
            }
        }
    }
}
