//! The files of a check.
ghost use Rattle.std.specs.List.{slice_get};
ghost use Rattle.std.specs.Prelude.{◌-◌, length, map, min, None, unwrap_or};
ghost use Rattle.pool_settings.specs.Defaults.{defaults};

use crate::fault::Fault;
use crate::progress::Progress;
use crate::runs::open;
use crate::watched::{Reading, Watched};
use pool_engines::Segments;
use pool_settings::Settings;
use std::fs::File;
use std::io::ErrorKind;
use std::path::Path;
use std::sync::atomic::{AtomicUsize, Ordering};
use std::{fs, io};

/// The files at these paths.
#[derive(Drop)]
pub(crate) struct Files<'a, 'w, 'o, 'p, 'r> {
    pub rt: &'r HostRuntime,
    pub paths: &'w [&'a str],
    /// The settings of each. The last ones are also those of the files after them.
    pub settings: &'w [Settings],
    /// Those that are not regular, and may be read only once. Each of the others is opened whenever it is read.
    pub opened: &'o [Option<File>],
    /// The number of the file that was opened last: that of the verdict, unless it is legal.
    pub last: AtomicUsize,
    pub progress: &'p Progress<'r>,
}

impl<'o> Files<'_, '_, 'o, '_, '_> {
    /// Returns how to read the file of this number, at this path.
    fn reading(&self, number: usize, path: &str) -> io::Result<Reading<'o>> {
        match self.opened.get(number) {
            Some(Some(file)) => Ok(Reading::InTurn(file)),
            _ => Ok(Reading::Opened(File::open(self.rt, path)?)),
        }
    }
}

impl<'a, 'w, 'o, 'p, 'r> Segments<Watched<'o, 'p, 'r>> for Files<'a, 'w, 'o, 'p, 'r> {
    ghost files = { λ files. map (λ path. None) files.paths.now };

    ghost rules = { λ files. λ number. unwrap_or (slice_get files.settings.now
        (min number (length files.settings.now - 1))) defaults };

    fn count(&self) -> usize {
        self.paths.len()
    }

    fn settings(&self, number: usize) -> Settings {
        let last = self.settings.len().saturating_sub(1);
        match self.settings.get(number.min(last)) {
            Some(settings) => *settings,
            None => Settings::default(),
        }
    }

    fn open(&self, number: usize) -> io::Result<Watched<'o, 'p, 'r>> {
        let Some(path) = self.paths.get(number) else {
            return Err(io::Error::from(ErrorKind::NotFound));
        };
        self.last.store(number, Ordering::SeqCst);
        let reading = self.reading(number, path)?;
        Ok(Watched {
            reading,
            progress: self.progress,
        })
    }
}

/// Opens the files at these paths, in their order, and returns those that are not regular. So each error of opening comes
/// before the check, and there may be more files than may be open at once.
pub(crate) fn open_all<'a>(
    rt: &HostRuntime,
    paths: &[&'a str],
    progress: &Progress<'_>,
) -> Result<Vec<Option<File>>, Fault<'a>> {
    let mut opened = Vec::new(rt.alloc());
    for path in paths {
        let file = open(rt, path)?;
        progress.expect(&file);
        let is_regular = file.metadata().is_ok_and(|metadata| metadata.is_file());
        if opened
            .push(if is_regular { None } else { Some(file) })
            .is_err()
        {
            return Err(Fault::OutOfMemory);
        }
    }
    Ok(opened)
}

/// Returns whether there is a regular file at this path.
pub(crate) fn is_regular(rt: &HostRuntime, path: Path<'_>) -> bool {
    match fs::metadata(rt, path) {
        Ok(metadata) => metadata.is_file(),
        Err(_) => false,
    }
}
