//! The calls of a pool without a lock, a factory or a wait: a host is told what to do next, and reports what came of
//! it.
#![tactic(auto)]

mod action;
mod answers;
mod call_counts;
mod hook_plan;
mod kind;
mod laws;
mod objects;
mod operation;
mod places;
mod stage;
mod waiters;
mod words;
mod work;

pub use action::{Action, End, Event, StepFailure};
pub use call_counts::CallCounts;
pub use hook_plan::HookPlan;
pub use kind::Kind;
pub use laws::{
    calls_given_up_end_soon, numbers_are_of_one_call, only_destroyed_objects_are_freed,
    overtakes_count_once_due,
};
pub use operation::{Operation, OperationWords};
pub use stage::{Object, Place, Request, Stage};
pub use waiters::Waiters;
pub use work::{Task, Work};
