//! A test program: it runs pools at random to the last lines that their journals have room for, and then completes all
//! work.
//!
//! In the middle of each run it cuts the journal, and opens the pool again from the state after it. It makes each run
//! twice. A step, a cut or an opening that fails for lack of memory is tried again, so both runs are the same, even if
//! an allocation fails in one of them. It checks the journal of a life in two files, before and after the cut. It writes
//! a line with the result for each limit of the journal.
#![tactic(auto)]

mod dice;
mod judging;
mod life;
mod reopening;

use crate::life::{Life, Verdict};
use std::alloc::{AllocError, Global};
use std::process::ExitCode;

/// The limits of the journals.
const LIMITS: [u64; 4] = [1, 8, 16, 30];

/// Runs a life beside one that has ended, and returns how the two ended.
fn compared(alloc: Global, limit: u64, one: &Life) -> Result<Verdict, AllocError> {
    let mut other = Life::begun(alloc, limit)?;
    other.run(alloc);
    if one.is_legal(alloc)? {
        Ok(one.verdict(&other))
    } else {
        Ok(Verdict::Illegal)
    }
}

/// Runs two lives of one kind, and returns how they ended.
fn verdict(alloc: Global, limit: u64) -> Result<Verdict, AllocError> {
    let mut one = Life::begun(alloc, limit)?;
    one.run(alloc);
    compared(alloc, limit, &one)
}

fn main(rt: HostRuntime) -> ExitCode {
    for limit in LIMITS {
        let found = verdict(rt.alloc(), limit).unwrap_or(Verdict::OutOfMemory);
        let _ = println!(rt; "journalLimit {limit}: {}", found.text());
    }
    ExitCode::SUCCESS
}
