//! The state that the lock of a shared pool protects: the core and the authoritative pass; and the critical sections.
#![tactic(auto)]

mod clock;
mod factory;
mod locked_pool;

pub use clock::Clock;
pub use factory::Factory;
pub use locked_pool::LockedPool;
