//! The calls of a caller, as it marks them and as a journal has them.

use pool_journal::{Answer, Entry, Input, Outcome, Segment, When};
use std::slice::Iter;

/// A call that began, or its result.
#[derive(Clone, Copy, PartialEq, Eq)]
pub enum Mark {
    Borrows,
    /// A borrow lent this object.
    Lent(u64),
    /// A borrow failed, since the pool had no object for it.
    Denied,
    GivesBack(u64),
    Invalidates(u64),
    Uses(u64),
    Adds,
    /// A fill found enough, or no place for more.
    Filled,
    Evicts,
    Reclaims,
    Clears,
    Closes,
}

// Returns the mark of a borrow that has no object, by its answer.
fn borrow_mark(answer: Answer) -> Option<Mark> {
    match answer {
        Answer::Exhausted | Answer::TimedOut | Answer::Refused(_) => Some(Mark::Denied),
        _ => None,
    }
}

fn ready_mark(id: u64, outcome: Outcome) -> Option<Mark> {
    match outcome {
        Outcome::Good => Some(Mark::Lent(id)),
        _ => None,
    }
}

fn fill_mark(answer: Answer) -> Option<Mark> {
    match answer {
        Answer::Enough | Answer::NoPlace => Some(Mark::Filled),
        _ => None,
    }
}

fn reclaim_mark(on: When) -> Mark {
    match on {
        When::Borrow => Mark::Borrows,
        When::Maintain => Mark::Reclaims,
    }
}

/// Returns the mark that an entry has of its caller's calls.
fn mark_of(entry: &Entry) -> Option<Mark> {
    match entry.input {
        Input::Borrow { began: _ } => borrow_mark(entry.answer),
        Input::Ready { id, outcome } => ready_mark(id, outcome),
        Input::GiveBack { id } => Some(Mark::GivesBack(id)),
        Input::Invalidate { id } => Some(Mark::Invalidates(id)),
        Input::Use { id } => Some(Mark::Uses(id)),
        Input::Add => Some(Mark::Adds),
        Input::Fill => fill_mark(entry.answer),
        Input::Evict => Some(Mark::Evicts),
        Input::Reclaim { on } => Some(reclaim_mark(on)),
        Input::Clear => Some(Mark::Clears),
        Input::Close => Some(Mark::Closes),
        _ => None,
    }
}

// Returns whether the entries of one caller have the next of its marks, and takes those marks.
fn reports_next(entries: &[Entry], caller: u32, left: &mut Iter<Mark>) -> bool {
    for entry in entries {
        if entry.caller == caller {
            if let Some(mark) = mark_of(entry) {
                if left.next() != Some(&mark) {
                    return false;
                }
            }
        }
    }
    true
}

/// Returns whether a journal with these segments and stored entries has exactly these marks of one caller.
pub fn reports(segments: &[Segment], stored: &[Entry], caller: u32, marks: &[Mark]) -> bool {
    let mut left = marks.iter();
    for segment in segments {
        if !reports_next(segment.entries.as_slice(), caller, &mut left) {
            return false;
        }
    }
    reports_next(stored, caller, &mut left) && left.next().is_none()
}
