//! Laws of all calls, by the rules that each report follows.
ghost use Rattle.pool_calls.specs.Runs.{EndsSoon, FreesOnlyDestroyed};
ghost use Rattle.pool_calls.specs.Waiting.{CountsOnceDue};
ghost use Rattle.pool_calls.specs.Words.{ReadsOne};

/// A call that is given up is over after at most three more reports that fit.
pub fn calls_given_up_end_soon()
    ensures { EndsSoon }
{}

/// The place of an object is freed only after the factory destroyed it, unless its holder keeps it.
pub fn only_destroyed_objects_are_freed()
    ensures { FreesOnlyDestroyed }
{}

/// Plain numbers are those of one call at most.
pub fn numbers_are_of_one_call()
    ensures { ReadsOne }
{}

/// Once a ticket has waited for as long as is set, each overtake of it counts.
pub fn overtakes_count_once_due()
    ensures { CountsOnceDue }
{}
