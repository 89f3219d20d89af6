//! A pool whose calls a host drives: the host holds a lock, sleeps, and asks the factory; what comes next is decided
//! here.
#![tactic(auto)]

mod beginning;
mod call;
mod effects;
mod hooks;
mod journal;
mod options;
mod pool;
mod report;
mod stepping;
mod usual;
mod usual_steps;
mod waiting;
mod words;

pub use call::Call;
pub use effects::Effects;
pub use hooks::Hooks;
pub use options::Options;
pub use pool::HostedPool;
pub use report::Report;
pub use words::CallWords;
