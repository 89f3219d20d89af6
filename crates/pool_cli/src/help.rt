//! The output of the program if its arguments ask for help or for the version.
ghost use Rattle.std.specs.Prelude.{◌≡◌, drop, map, string_bytes};
ghost use Rattle.std.specs.List.{list_any};
ghost use Rattle.pool_cli.specs.Help as Spec;

/// The uses of the program, and an example of each.
pub(crate) const USES: &str = "\
pool run SETTINGS SCRIPT           plays a script, and writes its journal
  pool run examples/patient.toml examples/one-object.script > journal
pool check SETTINGS JOURNAL..      judges a journal, or its segments in their order: legal, or what was due at the first wrong answer
  pool check examples/patient.toml journal
pool stats JOURNAL                 reports the statistics of a journal
  pool stats journal
pool load SETTINGS WORKERS ROUNDS  lets threads borrow from one pool and give back, and reports
  pool load examples/settings.toml 4 1000
pool                               plays standard input with the default settings
  pool < examples/plain-life.script
";

/// The program's name and version. The number is that of the Rust crate.
pub(crate) const VERSION: &str = "pool 0.1.0\n";

/// Returns whether the arguments ask for help. The first argument is the program's name.
pub(crate) fn asks_for_help(arguments: &[String]) -> bool
    ensures { result ≡ Spec.asks_for_help (drop 1 (map string_bytes arguments.now)) }
{
    match arguments.split_first() {
        Some((_, words)) => is_help(words),
        None => false,
    }
}

/// Returns whether the words after the program's name ask for help.
fn is_help(words: &[String]) -> bool
    ensures { result ≡ Spec.asks_for_help (map string_bytes words.now) }
{
    match words.split_first() {
        Some((command, _)) => command.as_str() == "help" || has_help_option(words),
        None => false,
    }
}

/// Returns whether one of the words asks for help at any position.
fn has_help_option(words: &[String]) -> bool
    ensures { result ≡ list_any (λ word. Spec.is_help_option (string_bytes word)) words.now }
{
    words.iter().any(|word| is_help_option(word))
}

/// Returns whether the arguments ask for the version: the first word does, and no word asks for help. The first
/// argument is the program's name.
pub(crate) fn asks_for_version(arguments: &[String]) -> bool
    ensures { result ≡ Spec.asks_for_version (drop 1 (map string_bytes arguments.now)) }
{
    match arguments.split_first() {
        Some((_, words)) => is_version(words),
        None => false,
    }
}

/// Returns whether the words after the program's name ask for the version.
fn is_version(words: &[String]) -> bool
    ensures { result ≡ Spec.asks_for_version (map string_bytes words.now) }
{
    match words.split_first() {
        Some((command, _)) => is_version_option(command) && !is_help(words),
        None => false,
    }
}

/// Returns whether a word asks for the version if it is the first.
fn is_version_option(word: &String) -> bool
    ensures { result ≡ Spec.is_version_option (string_bytes word.now) }
{
    word.as_str() == "--version" || word.as_str() == "-V"
}

/// Returns whether a word asks for help at any position.
fn is_help_option(word: &String) -> bool
    ensures { result ≡ Spec.is_help_option (string_bytes word.now) }
{
    word.as_str() == "--help" || word.as_str() == "-h"
}
