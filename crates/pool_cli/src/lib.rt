//! The parts of the program that need no shared pool: its arguments, runs, checks and statistics over files, the lines of each error
//! with hints at a terminal, and help.
#![tactic(auto)]

mod arguments;
mod checks;
mod fault;
mod files;
mod found;
mod help;
mod hint;
mod line_kind;
mod progress;
mod reporting;
mod runs;
mod watched;

pub use arguments::{Task, task_of};
pub use checks::{Checked, check_files, check_journal};
pub use fault::{Fault, engine_result};
pub use reporting::{refuse, report};
pub use runs::{report_statistics, run_input, run_script, settings_in};
