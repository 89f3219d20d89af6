//! The program: it runs scripts on a pool, checks journals, reports their statistics, and puts a load on a pool that
//! threads share.
//!
//! Without arguments it runs standard input with the default settings. `run SETTINGS SCRIPT` runs a file,
//! `check SETTINGS JOURNAL..` checks a journal in one file or more, `stats JOURNAL` writes its statistics, and with
//! `load SETTINGS WORKERS ROUNDS` workers borrow from one pool and return. It writes to standard output. The status is
//! 0 on success, 1 for a journal that is not legal, 2 for wrong arguments, and 3 for any other error. An error is
//! reported in one line on standard error. At a terminal further lines follow, with its position and what to do. If
//! wrong arguments ask for help or for the version, these are written too.
#![tactic(auto)]

use pool_cli::{
    Fault, Task, check_journal, engine_result, refuse, report, report_statistics, run_input,
    run_script, settings_in, task_of,
};
use pool_engines::write_report;
use pool_load::{Gate, load};
use std::env;
use std::process::ExitCode;
use std::sync::Wait;
use std::thread::Threads;

fn main(rt: HostRuntime) -> ExitCode {
    match arguments_of(&rt) {
        Ok(arguments) => match perform(&rt, &rt, &arguments) {
            Ok(code) => code,
            Err(fault) => report(&rt, &fault),
        },
        Err(fault) => report(&rt, &fault),
    }
}

/// Returns the name of the program, and the words after it.
fn arguments_of<'a>(rt: &HostRuntime) -> Result<Vec<String>, Fault<'a>> {
    match env::args(rt) {
        Ok(words) => Ok(words.collect(rt.alloc())?),
        Err(cause) => Err(Fault::of_unread(&cause)),
    }
}

/// Does the task that the arguments name. The threads are those of the runtime.
fn perform<'a, R: Threads + Wait + Sync>(
    rt: &HostRuntime,
    threads: &R,
    arguments: &'a [String],
) -> Result<ExitCode, Fault<'a>> {
    match task_of(rt.alloc(), arguments)? {
        Some(Task::RunInput) => run_input(rt),
        Some(Task::Run { settings, script }) => run_script(rt, settings, script),
        Some(Task::Check { settings, journals }) => {
            check_journal(rt, threads, settings, &journals)
        }
        Some(Task::Stats { journal }) => report_statistics(rt, journal),
        Some(
            Task::Load {
                settings,
                workers,
                rounds,
            },
        ) => load_pool(rt, threads, settings, workers, rounds),
        None => Err(refuse(rt, arguments)),
    }
}

/// A gate that holds no worker back.
struct NoGate;

impl Gate for NoGate {
    fn pass(&self, _worker: u32, _round: u64) {}
}

fn load_pool<'a, R: Threads + Wait + Sync>(
    rt: &HostRuntime,
    threads: &R,
    settings: &'a str,
    workers: u32,
    rounds: u64,
) -> Result<ExitCode, Fault<'a>> {
    let settings = settings_in(rt, settings)?;
    let report = load(threads, rt.alloc(), settings, workers, rounds, &NoGate)?;
    let written = write_report(
        rt.alloc(),
        workers,
        rounds,
        report.refused,
        &report.stats,
        &mut rt.stdout(),
    );
    engine_result(None, written)?;
    Ok(ExitCode::SUCCESS)
}
