//! The output of the program if its argument asks for help or for the version.
ghost use Rattle.std.specs.Prelude.{◌≡◌, string_bytes};
ghost use Rattle.judge.specs.Help as Spec;

/// The uses of the program, and an example of the first.
pub(crate) const USES: &str = "\
judge FOLDER                 checks all segments in a folder, each with its settings, or those of each start in the folders below it
  judge journals
judge --held FOLDER          lists the objects that are held at the end of the journal, or of that of the last start: by whom, since when
  judge --held journals
judge SETTINGS SEGMENT       checks one segment of a journal independently, and prints the base with which the next segment must begin
  judge settings.toml segment-0001 > reached/segment-0001
judge --join FOLDER REACHED  joins the segments in a folder, of which the folder REACHED has what was printed, each under its name
  judge --join journals/20261130T035457Z-4711 reached
judge --help                 prints this text
judge --version              prints the version

The first -- ends the options. The status is 0 if the journal or the segment is legal, 1 if not, 2 for wrong arguments, and 3 for an
error of a file, its text, room or memory. Standard error names the file. In `illegal N` the entry is counted from 0 over the whole journal.
";

/// The program's name and version. The number is that of the Rust crate.
pub(crate) const VERSION: &str = "judge 0.1.0\n";

/// Returns whether a word asks for help if it is the only one.
pub(crate) fn asks_for_help(word: &String) -> bool
    ensures { result ≡ Spec.asks_for_help (string_bytes word.now) }
{
    word.as_str() == "--help" || word.as_str() == "-h"
}

/// Returns whether a word asks for the version if it is the only one.
pub(crate) fn asks_for_version(word: &String) -> bool
    ensures { result ≡ Spec.asks_for_version (string_bytes word.now) }
{
    word.as_str() == "--version" || word.as_str() == "-V"
}
