//! A test program: it plays the calls of a script on a pool that a host drives, and prints what the host does next.
//!
//! Standard input begins with a settings text up to an empty line. The next line is `pool OVERTAKES MILLIS ACTIVATES
//! VALIDATES PASSIVATES DROPS`: how often a call that has waited for so many milliseconds is overtaken at most, `yes` or
//! `no` for each hook of the factory, and whether the journal is dropped. Each further line is a command:
//!
//! - `borrow SLOT CALLER AT` begins a call in one of the slots 0 to 15. So do `add`, `fill`, `evict`, `reclaim`, `clear`
//!   and `close`; and `return SLOT CALLER AT ID TOKEN`, `invalidate` and `detach`; and `touch SLOT CALLER AT ID`.
//! - `report SLOT CALLER AT REPORT` goes on with it. The report is `go-on`, `made TOKEN`, `succeeded`, `failed`,
//!   `woken`, `room-made`, `no-room` or `given-up`.
//! - `cut` cuts the journal, and `journal` prints it.
//!
//! The answer to a call begins with its next action: `step`, `make-room`, `make ID`, one of `activate`, `validate`,
//! `passivate` and `destroy` with `ID TOKEN`, `sleep TICKET UNTIL`, `done lent ID TOKEN` or `done END`. It begins with
//! `misfit` if the report does not fit. If the call is one over several objects, what it has come to follows: `made N` of
//! a fill, `examined N` and `destroyed N` of an eviction, `reclaimed N`, and `destroyed N` of a clear or a close. A line
//! `low` follows if the journal is to be cut soon. The answer to `cut` and `journal` begins with that word and the number
//! of entries; the entries of the journal follow. Each answer then has a line `wake TICKET` for each call to wake, and
//! ends with `counts IDLE LENT RESERVED WAITING`.
//!
//! The status is 0. It is 2 for an error of the script, and 3 for an error of a stream or of memory. One line on
//! standard error reports the error.
#![tactic(auto)]

mod command;
mod error;
mod player;
mod printing;
mod script;

use command::Command;
use error::ScriptError;
use player::Player;
use printing::{write_counts, write_cut, write_journal, write_progress, write_wakes};
use script::Script;
use std::alloc::Global;
use std::io::{self, BufWriter, Read, Write};
use std::process::ExitCode;

fn main(rt: HostRuntime) -> ExitCode {
    match play(&rt) {
        Ok(()) => ExitCode::SUCCESS,
        Err(error) => {
            let _ = eprintln!(rt; "test_calls: {error}");
            ExitCode::from(error.status())
        }
    }
}

/// Plays the script on standard input.
fn play(rt: &HostRuntime) -> Result<(), ScriptError> {
    let alloc = rt.alloc();
    let mut script = Script::new(alloc, rt.stdin())?;
    let mut player = open(alloc, &mut script)?;
    let mut out = BufWriter::new(alloc, io::writer(rt))?;
    play_commands(alloc, &mut script, &mut player, &mut out)
}

/// Opens the pool of the first lines of a script.
fn open<R: Read + Drop>(alloc: Global, script: &mut Script<R>) -> Result<Player, ScriptError> {
    let settings = script.settings(alloc)?;
    let options = script.options(alloc)?;
    Ok(Player::open(alloc, settings, options)?)
}

/// Plays the commands of a script, and answers each before the next is read.
fn play_commands<R: Read + Drop, W: Write>(
    alloc: Global,
    script: &mut Script<R>,
    player: &mut Player,
    out: &mut W,
) -> Result<(), ScriptError> {
    for _ in 0..u64::MAX {
        let Some(command) = script.command(alloc)? else {
            break;
        };
        play_one(alloc, script, player, command, out)?;
        write_counts(out, &player.pool)?;
        out.flush()?;
    }
    Ok(())
}

/// Plays a command, and writes its answer up to the calls to wake.
fn play_one<R: Read + Drop, W: Write>(
    alloc: Global,
    script: &Script<R>,
    player: &mut Player,
    command: Command,
    out: &mut W,
) -> Result<(), ScriptError> {
    match command {
        Command::Begin(turn, start) => match player.begin(&turn, &start) {
            Ok(progress) => write_progress(out, progress)?,
            Err(error) => return Err(script.error_of(error)),
        },
        Command::Report(turn, report) => match player.report(&turn, report) {
            Ok(progress) => write_progress(out, progress)?,
            Err(error) => return Err(script.error_of(error)),
        },
        Command::Cut => write_cut(out, player.cut(alloc)?)?,
        Command::Journal => write_journal(alloc, out, player.pool.core().journal())?,
    }
    write_wakes(out, &mut player.pool)?;
    Ok(())
}
