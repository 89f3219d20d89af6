//! Runs and statistics, and the files that they and checks read.

use crate::fault::{Fault, engine_result};
use pool_engines::{read_settings, run, stats};
use pool_settings::Settings;
use std::fs::File;
use std::process::ExitCode;

/// Runs the script on standard input with the default settings.
pub fn run_input<'a>(rt: &HostRuntime) -> Result<ExitCode, Fault<'a>> {
    let settings = Settings::default();
    engine_result(
        None,
        run(rt.alloc(), settings, &mut rt.stdin(), &mut rt.stdout()),
    )?;
    Ok(ExitCode::SUCCESS)
}

/// Runs the script in a file.
pub fn run_script<'a>(
    rt: &HostRuntime,
    settings: &'a str,
    script: &'a str,
) -> Result<ExitCode, Fault<'a>> {
    let settings = settings_in(rt, settings)?;
    let mut file = open(rt, script)?;
    engine_result(
        Some(script),
        run(rt.alloc(), settings, &mut file, &mut rt.stdout()),
    )?;
    Ok(ExitCode::SUCCESS)
}

/// Writes the statistics of the journal in a file.
pub fn report_statistics<'a>(rt: &HostRuntime, journal: &'a str) -> Result<ExitCode, Fault<'a>> {
    let mut file = open(rt, journal)?;
    engine_result(
        Some(journal),
        stats(rt.alloc(), &mut file, &mut rt.stdout()),
    )?;
    Ok(ExitCode::SUCCESS)
}

/// Reads the settings in a file.
pub fn settings_in<'a>(rt: &HostRuntime, path: &'a str) -> Result<Settings, Fault<'a>> {
    let mut file = open(rt, path)?;
    match read_settings(rt.alloc(), &mut file) {
        Ok(settings) => Ok(settings),
        Err(fault) => Err(Fault::Settings(path, fault)),
    }
}

/// Opens the file at this path.
pub(crate) fn open<'a>(rt: &HostRuntime, path: &'a str) -> Result<File, Fault<'a>> {
    match File::open(rt, path) {
        Ok(file) => Ok(file),
        Err(_) => Err(Fault::Unopened(path)),
    }
}
