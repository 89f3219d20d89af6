//! The changes of the record of an object that is not idle before nor after them.
ghost use Rattle.std.specs.Prelude.{◌≡◌};
ghost use Rattle.pool_places.specs.Turn.{turned};

use pool_journal::{Phase, Record};

/// A change of the record of an object.
#[derive(Clone, Copy)]
pub(crate) enum Turn {
    /// The object reaches a phase.
    Reach(Phase),
    /// It is lent at a time (milliseconds).
    Lend(u64),
    /// It is used at a time (milliseconds).
    Use(u64),
}

impl Turn {
    /// Returns the record after the change.
    #[inline(always)]
    pub(crate) fn of(self, known: Record) -> Record
        ensures { result ≡ turned self known }
    {
        match self {
            Turn::Reach(phase) => Record {
                phase,
                is_new: false,
                ..known
            },
            Turn::Lend(at) => Record {
                phase: Phase::Lent,
                lent: at,
                used: at,
                is_new: false,
                ..known
            },
            Turn::Use(at) => Record { used: at, ..known },
        }
    }
}
