//! Checks of a journal in one file or more.
ghost use Rattle.std.specs.Prelude.{◌≡◌, length, map};
ghost use Rattle.pool_engines.specs.SideBySide.{IsNumbered};
ghost use Rattle.pool_cli.specs.Messages.{cause_of, check_cause, file_of, numbered_file};

use crate::fault::Fault;
use crate::files::{Files, open_all};
use crate::hint::Hint;
use crate::progress::Progress;
use crate::runs::settings_in;
use pool_engines::{CheckFault, EngineFault, check_in_parallel};
use pool_settings::Settings;
use std::fs::File;
use std::io::{IsTerminal, Write};
use std::process::ExitCode;
use std::sync::atomic::{AtomicUsize, Ordering};
use std::thread;
use std::thread::Threads;

/// The status after a journal that is not legal.
const ILLEGAL: u8 = 1;

/// The most bytes of the line of a verdict.
const LONGEST_VERDICT: usize = 256;

/// The number of files checked in parallel for each processor. With more than one, no processor waits long for the
/// longest file.
const FILES_PER_PROCESSOR: usize = 4;

/// The result of a check.
#[derive(Debug, Drop)]
pub struct Checked<'a> {
    /// The line of the verdict.
    pub verdict: Vec<u8>,
    /// The path of the file that is not legal, if the journal is not.
    pub wrong: Option<&'a str>,
}

/// Checks the journal in these files, in their order, with these settings, and prints the verdict. At a terminal the file
/// that is not legal is named, if it is one of several. The status is 1 if the journal is not legal.
pub fn check_journal<'a, R: Threads + Sync>(
    rt: &HostRuntime,
    threads: &R,
    settings: &'a str,
    journals: &[&'a str],
) -> Result<ExitCode, Fault<'a>> {
    let settings = settings_in(rt, settings)?;
    let checked = check_files(rt, threads, "pool", &[settings], journals)?;
    let mut out = rt.stdout();
    if out.write_all(&checked.verdict).is_err() || out.flush().is_err() {
        return Err(Fault::Engine(None, EngineFault::Write));
    }
    match checked.wrong {
        None => Ok(ExitCode::SUCCESS),
        Some(path) => {
            let hint = Hint::of_file(path, journals.len() > 1 && rt.stderr().is_terminal());
            let _ = write!(rt.stderr(), "{hint}");
            Ok(ExitCode::from(ILLEGAL))
        }
    }
}

/// Checks the journal in these files, in their order, each with its settings: the last of these are also those of the files
/// after them. Two or more regular files are checked in parallel. At a terminal the progress is printed, after the name of
/// the program.
///
/// # Errors
///
/// `Unopened`, `NoRoom` and `Engine`, with the path of the file, and `OutOfMemory`.
pub fn check_files<'a, R: Threads + Sync>(
    rt: &HostRuntime,
    threads: &R,
    program: &'static str,
    settings: &[Settings],
    paths: &[&'a str],
) -> Result<Checked<'a>, Fault<'a>> {
    let progress = Progress::of(rt, program);
    let opened = open_all(rt, paths, &progress)?;
    let files = Files {
        rt,
        paths,
        settings,
        opened: &opened,
        last: AtomicUsize::new(0),
        progress: &progress,
    };
    let mut verdict = Vec::new(rt.alloc());
    verdict.reserve(LONGEST_VERDICT)?;
    let width = width(threads, &opened);
    let judged = check_in_parallel(threads, rt.alloc(), &files, width, &mut verdict);
    progress.wipe();
    match judged {
        Ok(true) => Ok(Checked {
            verdict,
            wrong: None,
        }),
        Ok(false) => Ok(Checked {
            verdict,
            wrong: paths.get(files.last.load(Ordering::SeqCst)).copied(),
        }),
        Err(fault) => Err(fault_of(paths, fault)),
    }
}

/// Returns the number of files to check in parallel. It is 0, so that they are checked in turn, if there is only one
/// file, if there is one processor or their number is unknown, or if a file is not regular, since it can be read only
/// once.
fn width<R: Threads>(threads: &R, opened: &[Option<File>]) -> usize {
    let Ok(processors) = thread::available_parallelism(threads) else {
        return 0;
    };
    if opened.len() < 2 || processors.get() < 2 || opened.iter().any(|file| file.is_some()) {
        return 0;
    }
    processors.get().saturating_mul(FILES_PER_PROCESSOR)
}

/// Returns the error with the path of its file.
fn fault_of<'a>(paths: &[&'a str], fault: CheckFault) -> Fault<'a>
    requires { IsNumbered (length paths.now) fault }
    ensures file { file_of result ≡ numbered_file (map (λ path. path.now) paths.now) fault }
    ensures cause { cause_of result ≡ check_cause fault }
{
    match fault {
        CheckFault::Unopened(number) => Fault::Unopened(paths[number as usize]),
        CheckFault::NoRoom(number) => Fault::NoRoom(paths[number as usize]),
        CheckFault::File(number, fault) => Fault::Engine(Some(paths[number as usize]), fault),
        CheckFault::Untold(fault) => Fault::Engine(None, fault),
    }
}
