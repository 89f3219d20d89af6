//! The lines of the report of a load.
ghost use Rattle.std.specs.Prelude.{◌≡◌, ◌++◌, OnOk};
ghost use Rattle.pool_journal.specs.Appending.{Extends};
ghost use Rattle.pool_engines.specs.Faults.{IsReported, is_write_failure};
ghost use Rattle.pool_engines.specs.ReportLines.{report_text, HandsReport};

use crate::engine_fault::EngineFault;
use crate::outgoing::write_buffered;
use crate::sink::Sink;
use crate::statistics_lines::{push_line, push_statistics};
use pool_stats::Statistics;
use std::alloc::{AllocError, Global};

/// Writes the results of a load: the lines `workers`, `rounds` (of each worker) and `refused` (borrows), and then those
/// of its statistics.
///
/// # Errors
///
/// `OutOfMemory`: nothing is then written. `Write`: a prefix of the lines may be written.
pub fn write_report<W: Sink>(
    alloc: Global,
    workers: u32,
    rounds: u64,
    refused: u64,
    stats: &Statistics,
    writer: &mut W,
) -> Result<(), EngineFault>
    ensures handed { HandsReport (report_text workers rounds refused stats.now)
        (W.contents writer.old) (W.contents writer.new) result }
    ensures reported { IsReported (is_write_failure result) (W.may_have_failed writer.old)
        (W.may_have_failed writer.new) }
{
    let mut lines = Vec::new(alloc);
    match push_report(&mut lines, workers, rounds, refused, stats) {
        Ok(()) => write_buffered(&mut lines, writer),
        Err(_) => Err(EngineFault::OutOfMemory),
    }
}

fn push_report(
    out: &mut Vec<u8>,
    workers: u32,
    rounds: u64,
    refused: u64,
    stats: &Statistics,
) -> Result<(), AllocError>
    ensures { OnOk result (out.new.items ≡ out.old.items
        ++ report_text workers rounds refused stats.now) }
{
    push_line(out, b"workers", u64::from(workers))?;
    push_line(out, b"rounds", rounds)?;
    push_line(out, b"refused", refused)?;
    push_statistics(out, stats)
}
