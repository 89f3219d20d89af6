//! The engines as the tests call them, over readers and writers that are slow, fail, are interrupted, or count.

mod calls;
mod counted;
mod failing;
mod outcomes;
mod reports;
mod scripts;
mod segments;
mod settings_files;
mod statistics;
mod streams;

use pool_engines::{EngineFault, FileFault, Sink, Source};
use pool_settings::Settings;
use pool_stats::Statistics;
use std::alloc::Global;

/// Plays a script.
pub fn run<R: Source, W: Sink>(
    alloc: Global,
    settings: Settings,
    reader: &mut R,
    writer: &mut W,
) -> Result<u64, EngineFault> {
    pool_engines::run(alloc, settings, reader, writer)
}

/// Checks a journal in files.
pub fn check<R: Source, W: Sink>(
    alloc: Global,
    settings: Settings,
    readers: &mut [R],
    writer: &mut W,
) -> Result<bool, EngineFault> {
    pool_engines::check(alloc, settings, readers, writer)
}

/// Writes the statistics of a journal.
pub fn stats<R: Source, W: Sink>(
    alloc: Global,
    reader: &mut R,
    writer: &mut W,
) -> Result<(), EngineFault> {
    pool_engines::stats(alloc, reader, writer)
}

/// Writes the statistics of a journal of at most `limit` objects and entries.
pub fn stats_of_at_most<R: Source, W: Sink>(
    alloc: Global,
    limit: u64,
    reader: &mut R,
    writer: &mut W,
) -> Result<(), EngineFault> {
    pool_engines::stats_of_at_most(alloc, limit, reader, writer)
}

/// Reads a settings file.
pub fn read_settings<R: Source>(alloc: Global, reader: &mut R) -> Result<Settings, FileFault> {
    pool_engines::read_settings(alloc, reader)
}

/// Writes a report.
pub fn write_report<W: Sink>(
    alloc: Global,
    workers: u32,
    rounds: u64,
    refused: u64,
    stats: &Statistics,
    writer: &mut W,
) -> Result<(), EngineFault> {
    pool_engines::write_report(alloc, workers, rounds, refused, stats, writer)
}
