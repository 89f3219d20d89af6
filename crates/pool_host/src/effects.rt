//! What the host of a call does next: the action, the token of its object, and how a wait ends.

use pool_calls::Action;

/// What the host of a call does next.
#[derive(Clone, Copy, Debug, PartialEq, Eq)]
pub struct Effects {
    /// The action. At a step the call has more of them to take, and the host reports `GoOn`, if it likes after others
    /// have had the lock.
    pub action: Action,
    /// The token of the object that the action is for, if there is one.
    pub token: u64,
    /// The ticket by which the call is woken, if it waits.
    pub ticket: Option<u64>,
    /// The time at which a wait is over by the settings, in milliseconds, if the call is a borrow and there is a limit.
    pub until: Option<u64>,
}
