//! Finds the key of a present object in the index.
ghost use Rattle.std.specs.Prelude.{◌≡◌, Some, IsSome};
ghost use Rattle.sorted_index.specs.Pairs.{key_of};

use sorted_index::SortedIndex;

/// Returns the key of a present object.
#[inline(always)]
pub(crate) fn key_under(index: &SortedIndex, id: u64) -> usize
    requires { IsSome (key_of index.now.pairs id) }
    ensures { key_of index.now.pairs id ≡ Some result }
{
    match index.find(id) {
        Some(key) => key,
        None => unreachable!(),
    }
}
