//! The counts of a journal, and the statistics of the use of a pool.
#![tactic(auto)]

mod counting;
mod counts;
mod ended;
mod lendings;
mod running_tally;
mod statistics;
mod tally;

pub use counts::Counts;
pub use ended::RemovalTotals;
pub use running_tally::RunningTally;
pub use statistics::Statistics;
