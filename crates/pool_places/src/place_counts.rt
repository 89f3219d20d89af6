//! The numbers of objects by their kind, which are updated with each change.
ghost use Rattle.std.specs.Prelude.{[]};
ghost use Rattle.pool_places.specs.Counts.{IsCounts, IsSmall, HasOne, HasOneMore};

use crate::phase_tests::{
    is_adding_phase, is_idle_phase, is_lent_phase, is_queued_phase, weight_of_phase,
};
use pool_journal::Phase;

/// The number of objects of each kind.
#[derive(Clone, Copy, Debug, PartialEq, Eq)]
pub struct PlaceCounts {
    /// The number of present objects.
    pub present: u64,
    /// The number of objects in the queue: idle, or under an idle test.
    pub queue: u64,
    /// The number of objects in the queue that aren't under a test.
    pub idle: u64,
    /// The number of lent objects.
    pub lent: u64,
    /// The number of objects that are being made for the queue.
    pub adding: u64,
    /// The most entries that all of them together may still need until their places are free.
    pub owed: u64,
}

impl PlaceCounts {
    /// Returns the counts of no objects.
    pub(crate) fn none() -> Self
        ensures { IsCounts result [] }
    {
        PlaceCounts {
            present: 0,
            queue: 0,
            idle: 0,
            lent: 0,
            adding: 0,
            owed: 0,
        }
    }

    /// Counts one more object.
    #[inline(always)]
    pub(crate) fn add(&mut self, phase: Phase)
        requires { IsSmall self.old }
        ensures { HasOneMore self.old self.new phase }
    {
        self.present += 1;
        self.queue += u64::from(is_queued_phase(phase));
        self.idle += u64::from(is_idle_phase(phase));
        self.lent += u64::from(is_lent_phase(phase));
        self.adding += u64::from(is_adding_phase(phase));
        self.owed += weight_of_phase(phase);
    }

    /// Counts one object fewer.
    #[inline(always)]
    pub(crate) fn remove(&mut self, phase: Phase)
        requires { HasOne self.old phase }
        ensures { HasOneMore self.new self.old phase }
    {
        self.present -= 1;
        self.queue -= u64::from(is_queued_phase(phase));
        self.idle -= u64::from(is_idle_phase(phase));
        self.lent -= u64::from(is_lent_phase(phase));
        self.adding -= u64::from(is_adding_phase(phase));
        self.owed -= weight_of_phase(phase);
    }
}
