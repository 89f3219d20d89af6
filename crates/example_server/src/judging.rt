//! The check of a journal, by the engine that the program `pool check` runs.

use crate::error::DayError;
use pool_engines::check;
use pool_journal::{Entry, print_entry};
use pool_settings::Settings;
use std::alloc::Global;

/// Returns whether each answer in a journal is the expected one for a pool with these settings.
pub fn is_legal(alloc: Global, settings: Settings, journal: &[Entry]) -> Result<bool, DayError> {
    let mut text = Vec::new(alloc);
    for entry in journal {
        print_entry(entry, &mut text)?;
    }
    let mut verdict = Vec::new(alloc);
    let is_legal = check(alloc, settings, &mut [text.as_slice()], &mut verdict)?;
    Ok(is_legal)
}
