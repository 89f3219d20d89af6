//! Keys in ascending order of id: found by a binary search, and removed without moving the others.
#![tactic(auto)]

mod marks;
mod pair;
mod positions;
mod queue_marks;
mod queue_positions;
mod reading;
mod sorted_index;
mod sorted_queue;
mod stored;
mod walk;

pub use pair::Pair;
pub use sorted_index::SortedIndex;
pub use sorted_queue::SortedQueue;
pub use walk::Walk;
