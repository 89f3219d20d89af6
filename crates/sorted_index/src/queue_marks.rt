//! Drops the marked pairs of a queue: at its ends, or all of them.
ghost use Rattle.std.specs.Prelude.{◌≡◌, ◌<◌, false, length};
ghost use Rattle.std.specs.VecDeque.{deque_len, deque_capacity};
ghost use Rattle.sorted_index.specs.Marks.{pairs_in, starts_gone, ends_gone, IsCounted, IsTrimmed};

use crate::stored::Stored;
use std::collections::VecDeque;

// Whether the first stored pair is marked.
fn is_first_gone(stored: &VecDeque<Stored>) -> bool
    ensures { result ≡ starts_gone stored.now.items }
{
    match stored.front() {
        Some(first) => first.is_gone,
        None => false,
    }
}

// Whether the last stored pair is marked.
fn is_last_gone(stored: &VecDeque<Stored>) -> bool
    ensures { result ≡ ends_gone stored.now.items }
{
    match stored.back() {
        Some(last) => last.is_gone,
        None => false,
    }
}

// Drops the marked pairs at the start.
fn trim_front(stored: &mut VecDeque<Stored>, gone: &mut usize)
    requires { IsCounted stored.old.items gone.old }
    ensures pairs { pairs_in stored.new.items ≡ pairs_in stored.old.items }
    ensures counted { IsCounted stored.new.items gone.new }
    ensures first { starts_gone stored.new.items ≡ false }
    ensures capacity { deque_capacity stored.new ≡ deque_capacity stored.old }
{
    while is_first_gone(stored) {
        let _ = stored.pop_front();
        *gone -= 1;
    }
}

// Drops the marked pairs at the end.
fn trim_back(stored: &mut VecDeque<Stored>, gone: &mut usize)
    requires counted { IsCounted stored.old.items gone.old }
    requires first { starts_gone stored.old.items ≡ false }
    ensures pairs { pairs_in stored.new.items ≡ pairs_in stored.old.items }
    ensures counted { IsCounted stored.new.items gone.new }
    ensures first { starts_gone stored.new.items ≡ false }
    ensures last { ends_gone stored.new.items ≡ false }
    ensures capacity { deque_capacity stored.new ≡ deque_capacity stored.old }
{
    while is_last_gone(stored) {
        let _ = stored.pop_back();
        *gone -= 1;
    }
}

// Drops all marked pairs.
fn sweep(stored: &mut VecDeque<Stored>, gone: &mut usize)
    requires { IsCounted stored.old.items gone.old }
    ensures pairs { pairs_in stored.new.items ≡ pairs_in stored.old.items }
    ensures trimmed { IsTrimmed stored.new.items gone.new }
    ensures none { gone.new ≡ 0 }
    ensures capacity { deque_capacity stored.new ≡ deque_capacity stored.old }
{
    stored.retain(|kept| !kept.is_gone);
    *gone = 0;
}

/// Drops all marked pairs if there is no memory for one more.
pub(crate) fn make_room(stored: &mut VecDeque<Stored>, gone: &mut usize)
    requires trimmed { IsTrimmed stored.old.items gone.old }
    requires room { length (pairs_in stored.old.items) < deque_capacity stored.old }
    ensures pairs { pairs_in stored.new.items ≡ pairs_in stored.old.items }
    ensures trimmed { IsTrimmed stored.new.items gone.new }
    ensures room { deque_len stored.new < deque_capacity stored.new }
    ensures capacity { deque_capacity stored.new ≡ deque_capacity stored.old }
{
    if stored.len() >= stored.capacity() {
        sweep(stored, gone);
    }
}

/// Drops the marked pairs at both ends, and all marked pairs if they are more than half of those that are stored.
pub(crate) fn tidy(stored: &mut VecDeque<Stored>, gone: &mut usize)
    requires { IsCounted stored.old.items gone.old }
    ensures pairs { pairs_in stored.new.items ≡ pairs_in stored.old.items }
    ensures trimmed { IsTrimmed stored.new.items gone.new }
    ensures capacity { deque_capacity stored.new ≡ deque_capacity stored.old }
{
    trim_front(stored, gone);
    trim_back(stored, gone);
    if *gone > stored.len().saturating_sub(*gone) {
        sweep(stored, gone);
    }
}
