//! The counts of a pool, computed from its state.
ghost use Rattle.std.specs.Prelude.{◌≡◌, true};
ghost use Rattle.std.specs.List.{AllByRecursion};
ghost use Rattle.pool_stats.specs.Counts.{counts_at};
ghost use Rattle.pool_core.specs.Stepper.{base_in};
ghost use Rattle.pool_journal.specs.Entries.{is_present};
ghost use Rattle.pool_places.specs.PlacesModel.{records_in};

use crate::state::State;
use pool_stats::Counts;

/// Returns the counts after `steps` entries, computed from the pool's state.
pub(crate) fn counts_behind<T>(state: &State<T>, steps: u64) -> Counts
    requires here { AllByRecursion (λ r. is_present r.phase ≡ true)
        (records_in state.now.places.objects) }
    ensures { result ≡ counts_at (base_in state.now steps) }
{
    let places = state.places.counts();
    Counts {
        steps,
        idle: places.queue,
        lent: places.lent,
        reserved: places.present - places.queue - places.lent,
        created: state.next,
        destroyed: state.ended.destroyed,
        evicted: state.ended.evicted,
        reclaimed: state.ended.reclaimed,
    }
}
