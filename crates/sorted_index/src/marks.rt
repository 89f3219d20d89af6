//! Drops the marked pairs of an index: at its end, or all of them.
ghost use Rattle.std.specs.Prelude.{◌≡◌, ◌≤◌, ◌<◌, false};
ghost use Rattle.std.specs.Vec.{vec_len, vec_capacity};
ghost use Rattle.sorted_index.specs.Marks.{pairs_in, ends_gone, IsCounted, IsTidy};

use crate::stored::Stored;

// Whether the last stored pair is marked.
fn is_last_gone(stored: &[Stored]) -> bool
    ensures { result ≡ ends_gone stored.now }
{
    match stored {
        [.., last] => last.is_gone,
        [] => false,
    }
}

// Drops the marked pairs at the end.
fn trim(stored: &mut Vec<Stored>, gone: &mut usize)
    requires { IsCounted stored.old.items gone.old }
    ensures pairs { pairs_in stored.new.items ≡ pairs_in stored.old.items }
    ensures counted { IsCounted stored.new.items gone.new }
    ensures last { ends_gone stored.new.items ≡ false }
    ensures len { vec_len stored.new ≤ vec_len stored.old }
    ensures capacity { vec_capacity stored.new ≡ vec_capacity stored.old }
{
    while is_last_gone(stored) {
        let _ = stored.pop();
        *gone -= 1;
    }
}

/// Drops all marked pairs.
pub(crate) fn sweep(stored: &mut Vec<Stored>, gone: &mut usize)
    requires { IsCounted stored.old.items gone.old }
    ensures pairs { pairs_in stored.new.items ≡ pairs_in stored.old.items }
    ensures tidy { IsTidy stored.new.items gone.new }
    ensures len { vec_len stored.new ≤ vec_len stored.old }
    ensures capacity { vec_capacity stored.new ≡ vec_capacity stored.old }
{
    stored.retain(|kept| !kept.is_gone);
    *gone = 0;
}

/// Drops the marked pairs at the end, and all marked pairs if they are more than half of those that are stored.
pub(crate) fn tidy(stored: &mut Vec<Stored>, gone: &mut usize)
    requires { IsCounted stored.old.items gone.old }
    ensures pairs { pairs_in stored.new.items ≡ pairs_in stored.old.items }
    ensures tidy { IsTidy stored.new.items gone.new }
    ensures len { vec_len stored.new ≤ vec_len stored.old }
    ensures capacity { vec_capacity stored.new ≡ vec_capacity stored.old }
{
    trim(stored, gone);
    if *gone > stored.len() - *gone {
        sweep(stored, gone);
    }
}
