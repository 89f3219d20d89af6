//! The objects of a pool: the record of each, and the values that the pool stores.
#![tactic(auto)]

mod keys;
mod last_uses;
mod overdue;
mod phase_tests;
mod place;
mod place_counts;
mod places;
mod queue;
mod turning;

pub use phase_tests::weight_of_phase;
pub use place::Place;
pub use place_counts::PlaceCounts;
pub use places::Places;
