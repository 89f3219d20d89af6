//! The numbers of objects by what is done with them.

use pool_journal::Phase;

/// The numbers of present objects.
#[derive(Clone, Copy)]
pub(crate) struct Counts {
    pub(crate) idle: u64,
    pub(crate) lent: u64,
    /// The number of those that are being made, tested or destroyed.
    pub(crate) reserved: u64,
}

impl Counts {
    /// Returns the counts of no objects.
    pub(crate) fn none() -> Counts {
        Counts {
            idle: 0,
            lent: 0,
            reserved: 0,
        }
    }

    /// Returns the count that an object in this phase is in.
    fn count_of(&mut self, phase: Phase) -> Option<&mut u64> {
        match phase {
            Phase::Idle | Phase::Testing => Some(&mut self.idle),
            Phase::Lent => Some(&mut self.lent),
            Phase::Readying | Phase::Adding | Phase::Returning | Phase::Destroying => {
                Some(&mut self.reserved)
            }
            Phase::Absent | Phase::Gone => None,
        }
    }

    /// Counts an object that reaches a phase.
    pub(crate) fn add(&mut self, phase: Phase) {
        if let Some(count) = self.count_of(phase) {
            *count = count.saturating_add(1);
        }
    }

    /// Removes an object that leaves a phase from its count.
    pub(crate) fn remove(&mut self, phase: Phase) {
        if let Some(count) = self.count_of(phase) {
            *count = count.saturating_sub(1);
        }
    }
}
