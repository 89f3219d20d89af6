//! Finds the position of an id in a queue, by a binary search.
ghost use Rattle.std.specs.Prelude.{◌≡◌, IfSome, IfNone, None};
ghost use Rattle.sorted_index.specs.Pairs.{key_of, IsAscending};
ghost use Rattle.sorted_index.specs.Marks.{all_in, pairs_in, IsStoredAt, IsThereAt, IsNowhere};

use crate::stored::Stored;
use std::collections::VecDeque;

// The position of an id, marked or not.
fn position_stored(stored: &VecDeque<Stored>, id: u64) -> Option<usize>
    requires { IsAscending (all_in stored.now.items) }
    ensures found { IfSome result (IsStoredAt stored.now.items id) }
    ensures absent { IfNone result (IsNowhere stored.now.items id) }
{
    stored.binary_search_by_key(&id, |kept| kept.pair.id).ok()
}

/// Returns the position of an id, if its pair is present.
pub(crate) fn position_there(stored: &VecDeque<Stored>, id: u64) -> Option<usize>
    requires { IsAscending (all_in stored.now.items) }
    ensures there { IfSome result (IsThereAt stored.now.items id) }
    ensures absent { IfNone result (key_of (pairs_in stored.now.items) id ≡ None) }
{
    let position = position_stored(stored, id)?;
    if stored[position].is_gone {
        None
    } else {
        Some(position)
    }
}
