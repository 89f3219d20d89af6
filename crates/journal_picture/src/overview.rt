//! The parts of a journal of any length to draw.

use crate::buckets::{Buckets, Levels};
use crate::counts::Counts;
use crate::distribution::Distribution;
use crate::loans::{Loan, Longest};
use crate::marks::Marks;
use pool_journal::{Answer, Entry, Input};
use std::alloc::{AllocError, Global};
use std::collections::HashMap;

/// A journal in buckets, with the distributions of its waits and loans.
///
/// A time before an earlier entry's counts as that one, except in the durations of waits and loans.
#[derive(Drop)]
pub(crate) struct Overview {
    /// The number of entries.
    pub(crate) entries: u64,
    /// The position of the first entry among all entries of the pool.
    pub(crate) position: u64,
    /// The times at which the entries begin and end.
    pub(crate) first: u64,
    pub(crate) last: u64,
    pub(crate) buckets: Buckets,
    pub(crate) waits: Distribution,
    pub(crate) loans: Distribution,
    pub(crate) longest: Longest,
    /// The callers that wait, each with the time at which it began to wait.
    waiting: HashMap<u32, u64>,
}

impl Overview {
    pub(crate) fn new(alloc: Global) -> Overview {
        Overview {
            entries: 0,
            position: 0,
            first: 0,
            last: 0,
            buckets: Buckets::new(alloc),
            waits: Distribution::new(alloc),
            loans: Distribution::new(alloc),
            longest: Longest::new(alloc),
            waiting: HashMap::new(alloc),
        }
    }

    /// Returns the number of borrowers that wait.
    pub(crate) fn waiting(&self) -> u64 {
        self.waiting.len() as u64
    }

    /// Takes in an entry, with the counts before and after it and the loan that it ends.
    pub(crate) fn take(
        &mut self,
        entry: &Entry,
        before: Counts,
        after: Counts,
        ended: Option<Loan>,
    ) -> Result<(), AllocError> {
        if self.entries == 0 {
            self.first = entry.at;
            self.buckets.begin(entry.at);
        }
        self.entries = self.entries.saturating_add(1);
        self.last = self.last.max(entry.at);
        let before = Levels::of(before, self.waiting());
        self.note_wait(entry)?;
        let after = Levels::of(after, self.waiting());
        self.buckets
            .take(self.last, before, after, Marks::of(entry))?;
        match ended {
            Some(loan) => self.note_loan(loan),
            None => Ok(()),
        }
    }

    fn note_loan(&mut self, loan: Loan) -> Result<(), AllocError> {
        self.loans.take(loan.duration())?;
        self.longest.take(loan)
    }

    /// Notes whether a borrower waits: it does from the first answer that it must wait to the next other answer.
    fn note_wait(&mut self, entry: &Entry) -> Result<(), AllocError> {
        let Input::Borrow { began: _ } = entry.input else {
            return Ok(());
        };
        if entry.answer == Answer::Wait {
            if !self.waiting.contains_key(&entry.caller) {
                self.waiting.insert(entry.caller, entry.at)?;
            }
            return Ok(());
        }
        match self.waiting.remove(&entry.caller) {
            Some(since) => self.waits.take(entry.at.saturating_sub(since)),
            None => Ok(()),
        }
    }
}
