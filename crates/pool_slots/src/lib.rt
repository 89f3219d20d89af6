//! Objects under keys, some of them in a queue. No call iterates over them.
#![tactic(auto)]

mod joining;
mod linking;
mod slot;
mod slots;

pub use slots::Slots;
