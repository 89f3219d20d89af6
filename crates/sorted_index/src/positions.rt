//! Finds the position of an id: at once if no id between it and the first is missing, otherwise by a search.
ghost use Rattle.std.specs.Prelude.{◌≡◌, IfSome, IfNone, None};
ghost use Rattle.sorted_index.specs.Pairs.{key_of, IsAscending};
ghost use Rattle.sorted_index.specs.Marks.{all_in, pairs_in, IsStoredAt, IsThereAt, IsNowhere};

use crate::stored::Stored;

// The position of an id if no id between it and the first is missing: the difference of the two ids.
#[inline(always)]
fn position_in_a_row(stored: &[Stored], id: u64) -> Option<usize>
    ensures { IfSome result (IsStoredAt stored.now id) }
{
    let first = stored.first()?;
    let position = id.wrapping_sub(first.pair.id) as usize;
    if stored.get(position)?.pair.id == id {
        Some(position)
    } else {
        None
    }
}

// The position of an id, marked or not, by a binary search.
fn position_searched(stored: &[Stored], id: u64) -> Option<usize>
    requires { IsAscending (all_in stored.now) }
    ensures found { IfSome result (IsStoredAt stored.now id) }
    ensures absent { IfNone result (IsNowhere stored.now id) }
{
    stored.binary_search_by_key(&id, |kept| kept.pair.id).ok()
}

// The position of an id, marked or not.
#[inline(always)]
fn position_stored(stored: &[Stored], id: u64) -> Option<usize>
    requires { IsAscending (all_in stored.now) }
    ensures found { IfSome result (IsStoredAt stored.now id) }
    ensures absent { IfNone result (IsNowhere stored.now id) }
{
    match position_in_a_row(stored, id) {
        Some(position) => Some(position),
        None => position_searched(stored, id),
    }
}

/// Returns the position of an id, if its pair is present.
#[inline(always)]
pub(crate) fn position_there(stored: &[Stored], id: u64) -> Option<usize>
    requires { IsAscending (all_in stored.now) }
    ensures there { IfSome result (IsThereAt stored.now id) }
    ensures absent { IfNone result (key_of (pairs_in stored.now) id ≡ None) }
{
    let position = position_stored(stored, id)?;
    if stored[position].is_gone {
        None
    } else {
        Some(position)
    }
}
