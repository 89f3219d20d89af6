//! The lines of a script.

use crate::command::{Command, command_of, options_of};
use crate::error::{LineError, ScriptError};
use pool_host::Options;
use pool_settings::Settings;
use std::alloc::Global;
use std::io::{BufRead, BufReader, Read};

/// A script that is read line by line.
#[derive(Drop)]
pub(crate) struct Script<R: Read + Drop> {
    reader: BufReader<R>,
    line: String,
    /// The number of the line that was read last, from 1.
    number: u64,
}

impl<R: Read + Drop> Script<R> {
    pub(crate) fn new(alloc: Global, reader: R) -> Result<Script<R>, ScriptError> {
        Ok(Script {
            reader: BufReader::new(alloc, reader)?,
            line: String::new(alloc),
            number: 0,
        })
    }

    /// Returns the error of the line that was read last.
    pub(crate) fn error_of(&self, error: LineError) -> ScriptError {
        ScriptError::Line(self.number, error)
    }

    /// Reads the next line. Returns whether there is one.
    fn next_line(&mut self) -> Result<bool, ScriptError> {
        self.line.clear();
        let count = self.reader.read_line(&mut self.line)?;
        self.number = self.number.saturating_add(1);
        Ok(count > 0)
    }

    /// Reads the settings, up to an empty line.
    pub(crate) fn settings(&mut self, alloc: Global) -> Result<Settings, ScriptError> {
        let mut text = String::new(alloc);
        for _ in 0..u64::MAX {
            if !self.next_line()? || self.line.as_str() == "\n" {
                break;
            }
            text.push_str(self.line.as_str())?;
        }
        Ok(Settings::from_text(alloc, text.as_str())?)
    }

    /// Reads the line of the pool.
    pub(crate) fn options(&mut self, alloc: Global) -> Result<Options, ScriptError> {
        let _ = self.next_line()?;
        let words: Vec<&str> = self.line.as_str().split_whitespace().collect(alloc)?;
        match options_of(&words) {
            Ok(options) => Ok(options),
            Err(error) => Err(self.error_of(error)),
        }
    }

    /// Reads the next command, if there is one.
    pub(crate) fn command(&mut self, alloc: Global) -> Result<Option<Command>, ScriptError> {
        if !self.next_line()? {
            return Ok(None);
        }
        let words: Vec<&str> = self.line.as_str().split_whitespace().collect(alloc)?;
        match command_of(&words) {
            Ok(command) => Ok(Some(command)),
            Err(error) => Err(self.error_of(error)),
        }
    }
}
