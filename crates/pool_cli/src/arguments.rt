//! Reads the arguments of the program `pool` with the crate `clap`.

ghost use Rattle.std.specs.Prelude.{◌≡◌, ◌^◌, false, IfOk, IsErr, drop, map, option_map, string_bytes};
ghost use Rattle.std.specs.List.{list_all};
ghost use Rattle.std.specs.Char.{is_ascii_digit};
ghost use Rattle.clap.specs.Words.{App, Rule, first_value, found_of, rule_of, with_rule, with_subcommand as add_subcommand};
ghost use Rattle.pool_cli.specs.Arguments as Spec;
ghost use Rattle.pool_cli.specs.Matches as Clap;

use clap::error::ErrorKind;
use clap::{Arg, ArgMatches, Command};
use std::alloc::{AllocError, Global};

/// A use of the program, which its arguments name. Files are given by their paths.
#[derive(Debug, Drop)]
pub enum Task<'a> {
    /// Runs standard input with the default settings.
    RunInput,
    /// Runs a script.
    Run {
        settings: &'a str,
        script: &'a str,
    },
    /// Checks a journal, which one file or more hold.
    Check {
        settings: &'a str,
        journals: Vec<&'a str>,
    },
    /// Reports the statistics of a journal.
    Stats {
        journal: &'a str,
    },
    /// Puts a load on a pool: the number of workers, and the number of rounds of each.
    Load {
        settings: &'a str,
        workers: u32,
        rounds: u64,
    },
}

/// Returns the task that the arguments name, or `None` if they are wrong. The first argument is the program's name.
///
/// May fail for lack of memory, even if the arguments are wrong: clap allocates for its command before it reads words.
pub fn task_of<'a>(alloc: Global, arguments: &'a [String]) -> Result<Option<Task<'a>>, AllocError>
    ensures { IfOk result (λ task. option_map Spec.asked task
        ≡ Spec.task_of (drop 1 (map string_bytes arguments.entry.now))) }
{
    let count = arguments.len();
    if count < 2 {
        return Ok(Some(Task::RunInput));
    }
    let command = pool_command(alloc)?;
    let matches = match command.try_get_matches_from(arguments) {
        Ok(matches) => matches,
        Err(error) => return refusal(error.kind()),
    };
    match matches.subcommand() {
        Some((name, found)) => task_by(alloc, name, found),
        None => Ok(None),
    }
}

/// Returns `None` for an error of clap. Fails if the error reports a failed allocation.
fn refusal<'a>(kind: ErrorKind) -> Result<Option<Task<'a>>, AllocError>
    ensures ok { IfOk result (λ task. task ≡ None) }
    ensures known { kind ≡ ErrorKind.OutOfMemory → IsErr result }
{
    if kind == ErrorKind::OutOfMemory {
        Err(AllocError)
    } else {
        Ok(None)
    }
}

/// Returns the program's command, which has a subcommand for each use with words.
fn pool_command<'a>(alloc: Global) -> Result<Command<'a>, AllocError>
    ensures { Clap.Builds Clap.pool_app result }
{
    let command = Ok(Command::new(alloc, "pool").subcommand_required(true));
    let command = with_subcommand(command, run_command(alloc));
    let command = with_subcommand(command, check_command(alloc));
    let command = with_subcommand(command, stats_command(alloc));
    with_subcommand(command, load_command(alloc))
}

fn run_command<'a>(alloc: Global) -> Result<Command<'a>, AllocError>
    ensures { Clap.Builds Clap.run_app result }
{
    let command = Ok(Command::new(alloc, "run"));
    let command = with_argument(command, operand(alloc, "settings"));
    with_argument(command, operand(alloc, "script"))
}

fn check_command<'a>(alloc: Global) -> Result<Command<'a>, AllocError>
    ensures { Clap.Builds Clap.check_app result }
{
    let command = Ok(Command::new(alloc, "check"));
    let command = with_argument(command, operand(alloc, "settings"));
    with_argument(command, operand(alloc, "journals").num_args(1..))
}

fn stats_command<'a>(alloc: Global) -> Result<Command<'a>, AllocError>
    ensures { Clap.Builds Clap.stats_app result }
{
    let command = Ok(Command::new(alloc, "stats"));
    with_argument(command, operand(alloc, "journal"))
}

fn load_command<'a>(alloc: Global) -> Result<Command<'a>, AllocError>
    ensures { Clap.Builds Clap.load_app result }
{
    let command = Ok(Command::new(alloc, "load"));
    let command = with_argument(command, operand(alloc, "settings"));
    let command = with_argument(command, operand(alloc, "workers"));
    with_argument(command, operand(alloc, "rounds"))
}

/// Returns a required operand with this name.
fn operand<'a>(alloc: Global, name: &'a str) -> Arg<'a>
    ensures rule { rule_of result ≡ Clap.operand_rule name.entry.now }
    ensures local { result.global ≡ false }
{
    Arg::new(alloc, name).required(true)
}

/// Adds an argument to a command, unless memory was short before.
fn with_argument<'a>(
    command: Result<Command<'a>, AllocError>,
    argument: Arg<'a>,
) -> Result<Command<'a>, AllocError>
    ensures { (app : App) (rule : Rule) → rule_of argument.entry ≡ rule
        → argument.entry.global ≡ false → Clap.Builds app command.entry
        → Clap.Builds (with_rule app rule) result }
{
    command?.arg(argument)
}

/// Adds a subcommand to a command, unless memory was short before.
fn with_subcommand<'a>(
    command: Result<Command<'a>, AllocError>,
    subcommand: Result<Command<'a>, AllocError>,
) -> Result<Command<'a>, AllocError>
    ensures { (app subapp : App) → Clap.Builds app command.entry → Clap.Builds subapp subcommand.entry
        → Clap.Builds (add_subcommand app subapp.top) result }
{
    command?.subcommand(subcommand?)
}

/// Returns the task that the matches of the subcommand with this name hold.
fn task_by<'a>(
    alloc: Global,
    name: &str,
    found: &ArgMatches<'a>,
) -> Result<Option<Task<'a>>, AllocError>
    ensures { IfOk result (λ task. option_map Spec.asked task
        ≡ Clap.task_by name.now (first_value (found_of found.now)) (Clap.all_values found.now)) }
{
    if name == "run" {
        Ok(run_by(found))
    } else if name == "check" {
        check_by(alloc, found)
    } else if name == "stats" {
        Ok(stats_by(found))
    } else if name == "load" {
        Ok(load_by(found))
    } else {
        Ok(None)
    }
}

fn run_by<'a>(found: &ArgMatches<'a>) -> Option<Task<'a>>
    ensures { option_map Spec.asked result ≡ Clap.run_by (first_value (found_of found.now)) }
{
    let settings = found.get_str("settings")?;
    let script = found.get_str("script")?;
    Some(Task::Run { settings, script })
}

fn check_by<'a>(alloc: Global, found: &ArgMatches<'a>) -> Result<Option<Task<'a>>, AllocError>
    ensures { IfOk result (λ task. option_map Spec.asked task
        ≡ Clap.check_by (first_value (found_of found.now)) (Clap.all_values found.now)) }
{
    match (found.get_str("settings"), found.get_strs("journals")) {
        (Some(settings), Some(journals)) => Ok(Some(Task::Check {
            settings,
            journals: Vec::from_slice(alloc, journals)?,
        })),
        _ => Ok(None),
    }
}

fn stats_by<'a>(found: &ArgMatches<'a>) -> Option<Task<'a>>
    ensures { option_map Spec.asked result ≡ Clap.stats_by (first_value (found_of found.now)) }
{
    let journal = found.get_str("journal")?;
    Some(Task::Stats { journal })
}

fn load_by<'a>(found: &ArgMatches<'a>) -> Option<Task<'a>>
    ensures { option_map Spec.asked result ≡ Clap.load_by (first_value (found_of found.now)) }
{
    let settings = found.get_str("settings")?;
    let workers = found.get_str("workers")?;
    let rounds = found.get_str("rounds")?;
    let workers = count_of(workers)?;
    let rounds = number_of(rounds)?;
    Some(Task::Load {
        settings,
        workers,
        rounds,
    })
}

/// Returns the number that a word spells, if it is below 2^32.
fn count_of(word: &str) -> Option<u32>
    ensures { result ≡ Spec.number_below (2 ^ 32) word.now }
{
    u32::try_from(number_of(word)?).ok()
}

/// Returns the number that a word spells in decimal digits without leading zeros, if it is below 2^64.
fn number_of(word: &str) -> Option<u64>
    ensures { result ≡ Spec.number_below (2 ^ 64) word.now }
{
    if is_decimal(word.as_bytes()) {
        word.parse().ok()
    } else {
        None
    }
}

fn is_decimal(word: &[u8]) -> bool
    ensures { result ≡ Spec.is_decimal word.now }
{
    let leads = word.len() > 1 && word[0] == b'0';
    !word.is_empty() && !leads && all_digits(word)
}

fn all_digits(word: &[u8]) -> bool
    ensures { result ≡ list_all is_ascii_digit word.now }
{
    word.iter().all(|byte| byte.is_ascii_digit())
}
