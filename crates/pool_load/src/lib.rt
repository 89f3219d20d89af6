//! Workers over a shared pool: rounds of borrows and returns, and a load of many workers at once. It re-exports the
//! engines, which process a stream of lines.
#![tactic(auto)]

mod gate;
mod ids;
mod loading;
mod rounds;
mod starting;
mod workers;

pub use gate::Gate;
pub use loading::{LoadReport, load};
pub use pool_engines::{
    CheckFault, EngineFault, FileFault, LoadFault, Segments, Sink, Source, check,
    check_in_parallel, flush_past_signals, read_past_signals, read_settings, run,
    runs_are_determined, stats, write_past_signals, write_report,
};
pub use rounds::work;
