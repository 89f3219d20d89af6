//! Reads the pair at a position, with the marked ones or without them.
ghost use Rattle.std.specs.Prelude.{◌≡◌, slice_get};
ghost use Rattle.sorted_index.specs.Marks.{all_in, pairs_in};

use crate::pair::Pair;
use crate::stored::Stored;
use crate::walk::Walk;

/// Returns the pair that is stored at a position, marked or not.
pub(crate) fn pair_stored(stored: &[Stored], position: usize) -> Option<Pair>
    ensures { result ≡ slice_get (all_in stored.now) position }
{
    stored.get(position).map(|kept| kept.pair)
}

/// Returns the pair at a position among the present pairs.
pub(crate) fn pair_there(stored: &[Stored], position: usize) -> Option<Pair>
    ensures { result ≡ slice_get (pairs_in stored.now) position }
{
    let mut left = position;
    for pair in Walk::new(stored) {
        if left == 0 {
            return Some(pair);
        }
        left -= 1;
    }
    None
}
