//! A pool that threads share.
#![tactic(auto)]

mod adding;
mod borrowing;
mod clearing;
mod evicting;
mod faults;
mod filling;
mod invalidating;
mod lent;
mod maintaining;
mod pauses;
mod pool;
mod reclaiming;
mod returning;
mod spinning;

pub use evicting::EvictRun;
pub use faults::{
    AddFault, Addition, BorrowFault, FinishFault, OpenFault, PoolFault, ReturnFault, Returned,
    Touched,
};
pub use lent::Lent;
pub use pool::SharedPool;
pub use pool_history::{Caller, PoolBrand, UnopenedPool};
pub use pool_lock::{Clock, Factory};
