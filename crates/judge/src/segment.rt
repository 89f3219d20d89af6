//! The file of the segment, as the only file of a journal.
ghost use Rattle.std.specs.Prelude.{◌∷◌, [], None};

use pool_engines::Segments;
use pool_settings::Settings;
use std::fs::File;
use std::io;
use std::io::ErrorKind;

/// The segment in the file at this path, and its settings.
#[derive(Drop)]
pub(crate) struct OneSegment<'a> {
    pub rt: &'a HostRuntime,
    pub path: &'a str,
    pub settings: Settings,
}

impl Segments<File> for OneSegment<'_> {
    ghost files = { λ segment. None ∷ [] };

    ghost rules = { λ segment. λ number. segment.settings };

    fn count(&self) -> usize {
        1
    }

    fn settings(&self, _number: usize) -> Settings {
        self.settings
    }

    fn open(&self, number: usize) -> io::Result<File> {
        match number {
            0 => File::open(self.rt, self.path),
            _ => Err(io::Error::from(ErrorKind::NotFound)),
        }
    }
}
