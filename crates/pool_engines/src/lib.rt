//! The engines: how the program processes a stream of lines.
#![tactic(auto)]

mod check_fault;
mod checker;
mod engine;
mod engine_fault;
mod expected_line;
mod file_fault;
mod in_sequence;
mod input_buffer;
mod judged_segment;
mod laws;
mod line_progress;
mod load_fault;
mod outgoing;
mod own_base;
mod parallel_check;
mod report_lines;
mod runner;
mod segment_fault;
mod segments;
mod settings_file;
mod sink;
mod source;
mod statistics_lines;
mod step;
mod tallier;
mod verdict;

pub use check_fault::CheckFault;
pub use engine_fault::EngineFault;
pub use file_fault::FileFault;
pub use in_sequence::check;
pub use judged_segment::{JudgedSegment, join};
pub use laws::runs_are_determined;
pub use load_fault::LoadFault;
pub use parallel_check::{check_in_parallel, judge_segment};
pub use report_lines::write_report;
pub use runner::run;
pub use segment_fault::SegmentFault;
pub use segments::Segments;
pub use settings_file::read_settings;
pub use sink::{Sink, flush_past_signals, write_past_signals};
pub use source::{Source, read_past_signals};
pub use tallier::{stats, stats_of_at_most};
