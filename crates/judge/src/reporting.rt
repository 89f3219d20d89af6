//! Errors on standard error, and files of settings.

use crate::error::JudgeError;
use pool_engines::read_settings;
use pool_settings::Settings;
use std::fs::File;

/// Prints the error on standard error, and returns the status. If that fails, the status alone reports it.
pub(crate) fn report(rt: &HostRuntime, error: &JudgeError<'_>) -> u8 {
    let _ = eprintln!(rt; "{error}");
    error.status()
}

/// Reads the settings in a file.
pub(crate) fn settings_in<'a>(rt: &HostRuntime, path: &'a str) -> Result<Settings, JudgeError<'a>> {
    let mut file = File::open(rt, path).map_err(|_| JudgeError::Unopened(path))?;
    read_settings(rt.alloc(), &mut file).map_err(|fault| JudgeError::Settings(path, fault))
}
