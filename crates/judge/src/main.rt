//! Checks journals in segments.
//!
//! `judge FOLDER` checks all segments in a folder in parallel, each with its settings, and prints the verdict. If the folder
//! has a folder for each start of a pool, it checks each start. `judge --held FOLDER` lists the objects that are held at
//! the end.
//!
//! `judge SETTINGS SEGMENT > REACHED` checks one segment alone. The pool continues from the base with which the segment
//! begins, and each entry must have the expected answer. The program prints the base after the segment: the lines with
//! which the next segment must begin. So the segments of a journal are checked in any order and on any machines.
//! `judge --join FOLDER REACHED` joins the results: the segments are one legal journal if each is legal, the first begins
//! at the base before all entries, and each other one begins with the lines that were printed for the one before it.
//!
//! The status is 0, 1 for what is not legal, 2 for any other arguments, and 3 for an error. One line on standard error names
//! the file and the error. `--help` or `--version`, as the only argument, prints the uses or the version.
#![tactic(auto)]

mod arguments;
mod error;
mod folder;
mod held;
mod help;
mod joining;
mod reporting;
mod rules;
mod segment;
mod whole;

use arguments::{Task, task_of};
use error::JudgeError;
use held::list_held;
use help::{USES, VERSION};
use joining::join_folder;
use pool_engines::{EngineFault, SegmentFault, judge_segment};
use pool_journal::print_base;
use pool_settings::Settings;
use reporting::{report, settings_in};
use segment::OneSegment;
use std::io::Write;
use std::path::Path;
use std::process::ExitCode;
use std::thread::Threads;
use std::{env, fs};
use whole::judge_folder;

fn main(rt: HostRuntime) -> ExitCode {
    let status = match arguments_of(&rt) {
        Ok(arguments) => match perform(&rt, &rt, &arguments) {
            Ok(status) => status,
            Err(error) => report(&rt, &error),
        },
        Err(error) => report(&rt, &error),
    };
    ExitCode::from(status)
}

/// Returns the name of the program and the words after it.
fn arguments_of<'a>(rt: &HostRuntime) -> Result<Vec<String>, JudgeError<'a>> {
    let words = env::args(rt).map_err(|cause| JudgeError::of_arguments(&cause))?;
    Ok(words.collect(rt.alloc())?)
}

/// Does what the arguments ask for, and returns the status. The threads are those of the runtime.
fn perform<'a, R: Threads + Sync>(
    rt: &HostRuntime,
    threads: &R,
    arguments: &'a [String],
) -> Result<u8, JudgeError<'a>> {
    match task_of(rt.alloc(), arguments)? {
        Some(Task::Help) => write(rt, USES.as_bytes())?,
        Some(Task::Version) => write(rt, VERSION.as_bytes())?,
        Some(Task::Segment { settings, segment }) => judge(rt, settings, segment)?,
        Some(Task::Folder { folder }) => return Ok(judge_folder(rt, threads, folder)),
        Some(Task::Join { folder, reached }) => return Ok(join_folder(rt, folder, reached)),
        Some(Task::Held { folder }) => return Ok(list_held(rt, folder)),
        None => return Err(JudgeError::WrongArguments),
    }
    Ok(0)
}

/// Checks the segment in a file, and prints the base after it.
fn judge<'a>(rt: &HostRuntime, settings: &'a str, segment: &'a str) -> Result<(), JudgeError<'a>> {
    let settings = settings_in(rt, settings)?;
    if !may_be_read_twice(rt, segment) {
        return Err(JudgeError::Segment(segment, SegmentFault::Engine(EngineFault::Read)));
    }
    match reached_by(rt, settings, segment) {
        Ok(text) => write(rt, &text),
        Err(SegmentFault::Unopened) => Err(JudgeError::Unopened(segment)),
        Err(fault) => Err(JudgeError::Segment(segment, fault)),
    }
}

/// Returns whether the file at this path has the same contents each time that it is opened, as a pipe has not. One that
/// is not there is reported once it is opened.
fn may_be_read_twice(rt: &HostRuntime, path: &str) -> bool {
    match fs::metadata(rt, Path::new(path)) {
        Ok(metadata) => metadata.is_file(),
        Err(_) => true,
    }
}

/// Returns the lines of the base after the segment in the file at this path.
fn reached_by(rt: &HostRuntime, settings: Settings, path: &str) -> Result<Vec<u8>, SegmentFault> {
    let segment = OneSegment { rt, path, settings };
    let judged = judge_segment(rt.alloc(), &segment, 0)?;
    let mut text = Vec::new(rt.alloc());
    match print_base(&judged.reached, &mut text) {
        Ok(()) => Ok(text),
        Err(_) => Err(SegmentFault::Engine(EngineFault::OutOfMemory)),
    }
}

fn write<'a>(rt: &HostRuntime, text: &[u8]) -> Result<(), JudgeError<'a>> {
    let mut out = rt.stdout();
    out.write_all(text).map_err(|_| JudgeError::NotWritten)?;
    out.flush().map_err(|_| JudgeError::NotWritten)
}
