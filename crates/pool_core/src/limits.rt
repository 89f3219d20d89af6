//! Compares numbers and times with the limits of the settings, and counts the tests of an eviction run.
ghost use Rattle.std.specs.Prelude.{◌≡◌, ◌-◌, ◌^◌, int_le, int_lt, min, pos};
ghost use Rattle.pool_core.specs.Fits.{entry_limit};
ghost use Rattle.pool_core.specs.Reply.{is_below, has_reached, is_past, is_nearly_full, tests_per_run};

use pool_settings::Settings;

/// Returns whether `n` is below a limit; a negative limit is no limit.
pub fn is_below_limit(limit: i32, n: u64) -> bool
    ensures { result ≡ is_below limit n }
{
    limit < 0 || n < limit as u64
}

/// Returns whether a limit in milliseconds is reached; a negative limit is no limit.
pub fn has_reached_limit(limit: i64, millis: u64) -> bool
    ensures { result ≡ has_reached limit millis }
{
    limit >= 0 && millis >= limit as u64
}

/// Returns whether a limit in milliseconds is exceeded; a limit that isn't positive is no limit.
pub fn is_past_limit(limit: i64, millis: u64) -> bool
    ensures { result ≡ is_past limit millis }
{
    limit > 0 && millis > limit as u64
}

/// Returns whether `n` is more than a limit less 3; always, if the limit is negative.
pub fn is_near_limit(limit: i32, n: u64) -> bool
    ensures { result ≡ is_nearly_full limit n }
{
    limit < 0 || n.saturating_add(3) > limit as u64
}

/// Returns whether `n` is at least `least`, which may be negative.
pub fn is_at_least(n: u64, least: i32) -> bool
    ensures { result ≡ int_le least (pos n) }
{
    least < 0 || n >= least as u64
}

/// Returns whether `n` is more than `least`, which may be negative.
pub fn is_more_than(n: u64, least: i32) -> bool
    ensures { result ≡ int_lt least (pos n) }
{
    least < 0 || n > least as u64
}

/// Returns the number of tests that an eviction run makes on a queue of length `queue`: `number`, but at most `queue`;
/// if `number` is negative, `queue` divided by its absolute value, rounded up.
pub fn number_of_tests(number: i32, queue: u64) -> u64
    ensures { result ≡ tests_per_run number queue }
{
    let parts = u64::from(number.unsigned_abs());
    if number < 0 {
        queue.div_ceil(parts)
    } else {
        queue.min(parts)
    }
}

/// Returns the greatest number of entries after `first` others: at most the limit of the settings, and such that all
/// together are fewer than 2^63. There is always room to close an empty pool.
pub fn limit_behind(settings: &Settings, first: u64) -> u64
    ensures { result ≡ min (entry_limit settings.now) (2 ^ 63 - 1 - first) }
{
    let limit = settings.journal_limit.max(1);
    limit.min(((1 << 63) - 1u64).saturating_sub(first))
}
