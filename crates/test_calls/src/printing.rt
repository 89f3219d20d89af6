//! The lines of an answer.

use crate::player::Progress;
use pool_calls::{Action, End, Kind, Operation, StepFailure};
use pool_host::{Effects, HostedPool};
use pool_journal::{Entry, print_entry};
use std::alloc::Global;
use std::io;
use std::io::Write;

/// Writes what the host of a call does next, or that its report does not fit.
pub(crate) fn write_progress<W: Write>(out: &mut W, progress: Option<Progress>) -> io::Result<()> {
    let Some(progress) = progress else {
        return out.write_all(b"misfit\n");
    };
    write_action(out, &progress.effects)?;
    write_tally(out, progress.operation)
}

/// Writes what a call over several objects has come to.
fn write_tally<W: Write>(out: &mut W, operation: Operation) -> io::Result<()> {
    let counts = operation.counts();
    match operation.kind() {
        Kind::Fill => write_number(out, "made", counts.objects),
        Kind::Evict => {
            write_number(out, "examined", counts.objects)?;
            write_number(out, "destroyed", counts.freed)
        }
        Kind::Reclaim => write_number(out, "reclaimed", counts.objects),
        Kind::Clear | Kind::Close => write_number(out, "destroyed", counts.objects),
        _ => Ok(()),
    }
}

fn write_number<W: Write>(out: &mut W, word: &str, number: u64) -> io::Result<()> {
    writeln!(out, "{word} {number}")
}

fn write_action<W: Write>(out: &mut W, effects: &Effects) -> io::Result<()> {
    match effects.action {
        Action::Step(_) => out.write_all(b"step\n"),
        Action::MakeRoom => out.write_all(b"make-room\n"),
        Action::Make(id) => writeln!(out, "make {id}"),
        Action::Activate(id) => write_object(out, "activate", id, effects.token),
        Action::Validate(id) => write_object(out, "validate", id, effects.token),
        Action::Passivate(id) => write_object(out, "passivate", id, effects.token),
        Action::Destroy(id) => write_object(out, "destroy", id, effects.token),
        Action::Wait => write_sleep(out, effects.ticket, effects.until),
        Action::Done(end) => write_end(out, end, effects.token),
    }
}

fn write_object<W: Write>(out: &mut W, word: &str, id: u64, token: u64) -> io::Result<()> {
    writeln!(out, "{word} {id} {token}")
}

fn write_sleep<W: Write>(out: &mut W, ticket: Option<u64>, until: Option<u64>) -> io::Result<()> {
    match (ticket, until) {
        (Some(ticket), Some(until)) => writeln!(out, "sleep {ticket} {until}"),
        (Some(ticket), None) => writeln!(out, "sleep {ticket}"),
        (None, _) => out.write_all(b"sleep\n"),
    }
}

fn write_end<W: Write>(out: &mut W, end: End, token: u64) -> io::Result<()> {
    match end {
        End::Lent(id) => write_object(out, "done lent", id, token),
        End::Contradicted(answer) => writeln!(out, "done contradicted {answer:?}"),
        other => writeln!(out, "done {}", name_of(other)),
    }
}

fn name_of(end: End) -> &'static str {
    match end {
        End::Lent(_) => "lent",
        End::Closed => "closed",
        End::Exhausted => "exhausted",
        End::TimedOut => "timed-out",
        End::MakeFailed => "make-failed",
        End::CreateTestFailed => "create-test-failed",
        End::ActivateFailed => "activate-failed",
        End::BorrowTestFailed => "borrow-test-failed",
        End::PassivateFailed => "passivate-failed",
        End::Parked => "parked",
        End::Destroyed => "destroyed",
        End::Gone => "gone",
        End::NotLent => "not-lent",
        End::Noted => "noted",
        End::NoPlace => "no-place",
        End::Complete => "complete",
        End::NotTaken(StepFailure::JournalFull) => "journal-full",
        End::NotTaken(StepFailure::OutOfMemory) => "out-of-memory",
        End::Cancelled => "cancelled",
        End::Contradicted(_) => "contradicted",
    }
}

/// Writes how many entries were cut.
pub(crate) fn write_cut<W: Write>(out: &mut W, count: usize) -> io::Result<()> {
    writeln!(out, "cut {count}")
}

/// Writes the number of the entries, and their lines.
pub(crate) fn write_journal<W: Write>(
    alloc: Global,
    out: &mut W,
    entries: &[Entry],
) -> io::Result<()> {
    let count = entries.len();
    writeln!(out, "journal {count}")?;
    let mut line = Vec::new(alloc);
    for entry in entries {
        line.clear();
        print_entry(entry, &mut line)?;
        out.write_all(&line)?;
    }
    Ok(())
}

/// Writes the tickets of the calls to wake.
pub(crate) fn write_wakes<W: Write>(out: &mut W, pool: &mut HostedPool) -> io::Result<()> {
    let most = pool.waiting().saturating_add(1);
    for _ in 0..most {
        let Some(ticket) = pool.next_wake() else {
            break;
        };
        writeln!(out, "wake {ticket}")?;
    }
    Ok(())
}

/// Writes the numbers of objects and of calls that wait.
pub(crate) fn write_counts<W: Write>(out: &mut W, pool: &HostedPool) -> io::Result<()> {
    let counts = pool.core().counts();
    write_numbers(
        out,
        [
            counts.idle,
            counts.lent,
            counts.reserved,
            pool.waiting() as u64,
        ],
    )
}

fn write_numbers<W: Write>(out: &mut W, numbers: [u64; 4]) -> io::Result<()> {
    let [idle, lent, reserved, waiting] = numbers;
    writeln!(out, "counts {idle} {lent} {reserved} {waiting}")
}
