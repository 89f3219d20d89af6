//! The lines of statistics, each a name and its number.
ghost use Rattle.std.specs.Prelude.{◌≡◌, ◌++◌, OnOk, OnErr};
ghost use Rattle.pool_journal.specs.Appending.{Extends};
ghost use Rattle.pool_engines.specs.StatisticsLines.{number_line, statistics_text};

use pool_journal::push_number_word;
use pool_stats::Statistics;
use std::alloc::AllocError;

/// Appends the lines of statistics, each a name and its number. On an error `out` is unchanged.
pub(crate) fn push_statistics(out: &mut Vec<u8>, found: &Statistics) -> Result<(), AllocError>
    ensures ok { OnOk result (out.new.items ≡ out.old.items ++ statistics_text found.now) }
    ensures unchanged_on_error { OnErr result (out.new.items ≡ out.old.items) }
{
    let start = out.len();
    let pushed = push_lines(out, found);
    if pushed.is_err() {
        out.truncate(start);
    }
    pushed
}

fn push_lines(out: &mut Vec<u8>, found: &Statistics) -> Result<(), AllocError>
    ensures ok { OnOk result (out.new.items ≡ out.old.items ++ statistics_text found.now) }
    ensures grows { Extends out.old.items out.new.items }
{
    push_line(out, b"borrowed", found.borrowed)?;
    push_line(out, b"returned", found.returned)?;
    push_line(out, b"created", found.created)?;
    push_line(out, b"destroyed", found.destroyed)?;
    push_line(out, b"evicted", found.evicted)?;
    push_line(out, b"borrowtestfailed", found.borrow_test_failed)?;
    push_line(out, b"reclaimed", found.reclaimed)?;
    push_line(out, b"longest", found.longest)?;
    push_line(out, b"total", found.total)?;
    Ok(())
}

/// Appends the line of a name and its number.
pub(crate) fn push_line(out: &mut Vec<u8>, name: &[u8], number: u64) -> Result<(), AllocError>
    ensures ok { OnOk result (out.new.items ≡ out.old.items ++ number_line name.now number) }
    ensures grows { Extends out.old.items out.new.items }
{
    out.extend_from_slice(name)?;
    push_number_word(out, number)?;
    out.push(b'\n')?;
    Ok(())
}
