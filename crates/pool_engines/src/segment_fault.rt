//! Why the check of one segment alone found no legal segment.

use crate::engine_fault::EngineFault;
use pool_core::BaseFault;
use thiserror::Error;

/// Why an independent check found no legal segment.
#[derive(Clone, Copy, Debug, PartialEq, Eq, Error)]
pub enum SegmentFault {
    /// No pool with these settings can continue from the base with which the segment begins, or there is no memory for
    /// one.
    #[error("pool: base: {0}")]
    Base(BaseFault),
    /// The entry at this position, counted from 0 among all of the journal, does not have the expected answer.
    #[error("pool: illegal {0}")]
    Illegal(u64),
    /// The segment can't be opened.
    #[error("pool: cannot open the segment")]
    Unopened,
    /// The segment can't be read to its end.
    #[error("{0}")]
    Engine(EngineFault),
}

impl From<EngineFault> for SegmentFault {
    ghost use Rattle.std.specs.Prelude.{◌≡◌};
    ghost use Rattle.pool_engines.specs.declared.segment_fault.SegmentFault.TheVariants.{Engine};

    ghost from_gives = { λ f e. e ≡ Engine f };

    fn from(fault: EngineFault) -> SegmentFault {
        SegmentFault::Engine(fault)
    }
}
