//! Draws journals: `journal_picture JOURNAL.. > picture.svg`.
//!
//! Up to 10,000 entries the picture has a lane for each object, with a bar for each phase that it was in, lent ones in
//! the colour of their caller; the waits of borrowers above, and the counts of objects below. A longer journal gets an
//! overview: the counts over time in at most 1,000 buckets, the distributions of waits and loans, the longest loans,
//! and the objects that are held at the end. It is read once, and memory is taken for its objects and for the buckets.
//!
//! A journal may be in one file or in several, as segments, of which each must begin where the one before it ends. It
//! is not checked otherwise: any entries are drawn. The status is 0, 2 for wrong arguments, and 3 at an error, which is
//! reported in one line on standard error.
#![tactic(auto)]

mod areas;
mod arguments;
mod buckets;
mod canvas;
mod charting;
mod colours;
mod counts;
mod distribution;
mod drawing;
mod error;
mod help;
mod history;
mod joint;
mod journal;
mod lane_builder;
mod layout;
mod loans;
mod mark_rows;
mod marks;
mod overview;
mod overview_drawing;
mod panel;
mod reading;
mod scale;
mod state;
mod time_axis;

use arguments::{Task, task_of};
use canvas::Canvas;
use drawing::draw;
use error::{Cause, PictureError};
use help::{USES, VERSION};
use journal::{Journal, Parts};
use journal_tools::Callers;
use overview_drawing::draw_overview;
use reading::read_file;
use std::env;
use std::fs::File;
use std::io::{self, BufWriter, Write};
use std::path::Path;
use std::process::ExitCode;

fn main(rt: HostRuntime) -> ExitCode {
    match arguments_of(&rt) {
        Ok(words) => match perform(&rt, &words) {
            Ok(()) => ExitCode::SUCCESS,
            Err(error) => refuse(&rt, &error),
        },
        Err(error) => refuse(&rt, &error),
    }
}

/// Reports an error on standard error.
fn refuse(rt: &HostRuntime, error: &PictureError<'_>) -> ExitCode {
    let _ = eprintln!(rt; "journal_picture: {error}");
    ExitCode::from(error.status())
}

/// Returns the name of the program and the words after it.
fn arguments_of<'a>(rt: &HostRuntime) -> Result<Vec<String>, PictureError<'a>> {
    match env::args(rt) {
        Ok(words) => Ok(words.collect(rt.alloc())?),
        Err(cause) => Err(PictureError::of_arguments(&cause)),
    }
}

fn perform<'a>(rt: &HostRuntime, words: &'a [String]) -> Result<(), PictureError<'a>> {
    match task_of(rt.alloc(), words)? {
        Some(Task::Help) => write_text(rt, USES),
        Some(Task::Version) => write_text(rt, VERSION),
        Some(Task::Draw(paths)) => picture(rt, &paths),
        None => Err(PictureError::WrongArguments),
    }
}

fn write_text<'a>(rt: &HostRuntime, text: &str) -> Result<(), PictureError<'a>> {
    let mut out = rt.stdout();
    match out.write_all(text.as_bytes()) {
        Ok(()) => Ok(()),
        Err(_) => Err(PictureError::NotWritten),
    }
}

/// Draws the journal in the files at these paths.
fn picture<'a>(rt: &HostRuntime, paths: &[&'a str]) -> Result<(), PictureError<'a>> {
    let mut journal = Journal::new(rt.alloc());
    read_paths(rt, &mut journal, paths)?;
    let parts = journal.into_parts(rt.alloc())?;
    write_parts(rt, &parts, &callers_beside(rt, paths)?)
}

/// Returns the names of callers beside the first of these files. There are none beside standard input.
fn callers_beside<'a>(rt: &HostRuntime, paths: &[&'a str]) -> Result<Callers, PictureError<'a>> {
    match paths.first() {
        Some(path) if *path != "-" => {
            let folder = Path::new(path).parent().unwrap_or(Path::new(""));
            Ok(Callers::in_folder(rt, folder)?)
        }
        _ => Ok(Callers::none(rt.alloc())),
    }
}

/// Reads the files at these paths, one after the other.
fn read_paths<'a>(
    rt: &HostRuntime,
    journal: &mut Journal,
    paths: &[&'a str],
) -> Result<(), PictureError<'a>> {
    for path in paths {
        if let Err(cause) = read_path(rt, journal, path) {
            return Err(PictureError::Journal(path, cause));
        }
    }
    Ok(())
}

/// Writes the picture to standard output.
fn write_parts<'a>(
    rt: &HostRuntime,
    parts: &Parts,
    callers: &Callers,
) -> Result<(), PictureError<'a>> {
    let mut out = match BufWriter::new(rt.alloc(), io::writer(rt)) {
        Ok(out) => out,
        Err(_) => return Err(PictureError::OutOfMemory),
    };
    match write_picture(&mut out, parts, callers) {
        Ok(()) => Ok(()),
        Err(_) => Err(PictureError::NotWritten),
    }
}

fn write_picture<W: Write>(out: &mut W, parts: &Parts, callers: &Callers) -> io::Result<()> {
    let mut canvas = Canvas::new(out, callers);
    match parts {
        Parts::Lanes(history) => draw(&mut canvas, history),
        Parts::Overview(overview, held) => draw_overview(&mut canvas, overview, held),
    }
    canvas.finish()?;
    out.flush()
}

/// Reads the file at a path, or standard input if the path is `-`.
fn read_path(rt: &HostRuntime, journal: &mut Journal, path: &str) -> Result<(), Cause> {
    if path == "-" {
        return read_file(rt.alloc(), journal, rt.stdin());
    }
    match File::open(rt, path) {
        Ok(file) => read_file(rt.alloc(), journal, file),
        Err(_) => Err(Cause::NotOpened),
    }
}
