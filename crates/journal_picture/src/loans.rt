//! Loans, and the longest of them.
ghost use Rattle.std.specs.Prelude.{◌≤◌, length};

use std::alloc::{AllocError, Global};

/// The number of loans that are listed.
const MOST_LISTED: usize = 10;

/// A loan that ended. Times are in milliseconds.
#[derive(Clone, Copy)]
pub(crate) struct Loan {
    pub(crate) object: u64,
    /// The caller that borrowed, or none if that was before the first entry.
    pub(crate) caller: Option<u32>,
    pub(crate) from: u64,
    pub(crate) until: u64,
}

impl Loan {
    /// Returns the loan's duration, in milliseconds: 0 if it ended before it began, as clocks may report.
    pub(crate) fn duration(&self) -> u64 {
        self.until.saturating_sub(self.from)
    }
}

/// The longest loans, the longest first, and of two of the same length the one that ended first.
#[derive(Drop)]
pub(crate) struct Longest {
    list: Vec<Loan>,
    ghost bounded: { length list.items ≤ 10 },
}

impl Longest {
    pub(crate) fn new(alloc: Global) -> Longest {
        Longest {
            list: Vec::new(alloc),
        }
    }

    pub(crate) fn as_slice(&self) -> &[Loan] {
        self.list.as_slice()
    }

    /// Takes in a loan that ended.
    pub(crate) fn take(&mut self, loan: Loan) -> Result<(), AllocError> {
        let place = self.place_of(&loan);
        if place >= MOST_LISTED {
            return Ok(());
        }
        self.list.truncate(MOST_LISTED - 1);
        self.list.insert(place, loan)?;
        Ok(())
    }

    /// Returns the number of loans that are at least as long.
    fn place_of(&self, loan: &Loan) -> usize
        ensures { result ≤ length self.now.list.items }
    {
        for (place, listed) in self.list.iter().enumerate() {
            if listed.duration() < loan.duration() {
                return place;
            }
        }
        self.list.len()
    }
}
