//! The output of the program if its arguments ask for help or for the version.

/// The uses of the program, and an example of each.
pub(crate) const USES: &str = "\
journal_picture JOURNAL..    draws a journal as an SVG picture, on standard output
  journal_picture journal > journal.svg
  journal_picture segment-000 segment-001 > journal.svg
  pool run SETTINGS SCRIPT | journal_picture - > journal.svg
journal_picture --help       prints this
journal_picture --version    prints the version

A journal stands in one file or in several, as segments in their order; - stands for standard input. Each segment must begin
where the one before it ends. Up to 10000 entries each object has a lane; a longer journal gets an overview.
";

/// The program's name and version. The number is that of the Rust crate.
pub(crate) const VERSION: &str = "journal_picture 0.1.0\n";
