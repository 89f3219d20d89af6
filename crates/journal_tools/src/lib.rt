//! What the programs that read journals share.
//!
//! The lines of a stream, the object that an entry moves, the names of callers, and the operands among the arguments.
#![tactic(auto)]

mod callers;
mod incoming;
mod moves;
mod operands;

pub use callers::{CallerName, Callers};
pub use incoming::Incoming;
pub use moves::{moved, object_of};
pub use operands::operands_of;
