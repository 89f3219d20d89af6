//! Where a call is: its stage by the entries so far, and its place between two reports.

use crate::action::End;
use crate::work::Task;
use pool_journal::Outcome;

/// A step that a call asks for while it holds no object.
#[derive(Clone, Copy)]
pub enum Request {
    /// A borrow begins to reclaim abandoned objects.
    Begin,
    /// The call asks as those of its kind do.
    Ask,
    /// It takes the next object of those that the pool counted, after which up to this many more follow.
    Next(u64),
}

/// An object of a call.
#[derive(Clone, Copy)]
pub struct Object {
    pub id: u64,
    /// Whether the call makes it.
    pub is_new: bool,
    /// How many more objects may follow it.
    pub left: u64,
}

/// What a call has come to, by its entries so far.
#[derive(Clone, Copy)]
pub enum Stage {
    Asks(Request),
    /// The factory does its tasks on the object, and the call reports the outcome.
    Works(Object),
    /// The object is destroyed, after work with this outcome, and its place is freed.
    Removes(Object, Outcome),
    /// The pool had given the place of the object away: it is destroyed.
    Gone(u64),
    Ends(End),
}

/// Where a call is between two reports of its host.
#[derive(Clone, Copy)]
pub enum Place {
    Asks(Request),
    /// The journal has no room for the step.
    LacksRoom(Request),
    Waits,
    /// The factory does this task.
    Works(Task, Object),
    Reports(Outcome, Object),
    Destroys(Outcome, Object),
    Frees(Outcome, Object),
    DestroysGone(u64),
    Ended(End),
}
