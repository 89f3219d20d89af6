//! Puts the values of keys into their settings.
ghost use Rattle.std.specs.Prelude.{◌≡◌, pos, nat_abs, IfOk, ◌≤ℤ◌, unsigned_abs};
ghost use Rattle.toml.specs.View.{view};
ghost use Rattle.pool_settings.specs.Faults.{ReturnsReading, Puts};
ghost use Rattle.pool_settings.specs.Ranges.{greatest_millis};
ghost use Rattle.pool_settings.specs.Values.{flag_in, number_in};

use crate::fault::SettingsFault;
use toml::Value;

/// The greatest limit of a journal's length, 2^32.
const GREATEST_LIMIT: i64 = 4_294_967_296;

/// The greatest number of milliseconds, 2^53.
const GREATEST_MILLIS: i64 = 9_007_199_254_740_992;

/// Puts a boolean.
pub(crate) fn put_flag(
    setting: &mut bool,
    key: &'static str,
    value: &Value,
) -> Result<(), SettingsFault>
    ensures { Puts (λ b. b) result setting.new (flag_in key.now (view value.now)) }
{
    match value.as_bool() {
        Some(flag) => {
            *setting = flag;
            Ok(())
        }
        None => Err(SettingsFault::WrongType(key)),
    }
}

/// Puts a journal's limit.
pub(crate) fn put_limit(
    setting: &mut u64,
    key: &'static str,
    value: &Value,
) -> Result<(), SettingsFault>
    ensures { Puts unsigned_abs result setting.new
        (number_in key.now (pos 1) (pos 4294967296) (view value.now)) }
{
    *setting = number(key, 1, GREATEST_LIMIT, value)? as u64;
    Ok(())
}

/// Puts a number of objects or tests, at least `least`.
pub(crate) fn put_count(
    setting: &mut i32,
    key: &'static str,
    least: i32,
    value: &Value,
) -> Result<(), SettingsFault>
    ensures { Puts (λ z. z) result setting.new
        (number_in key.now least (pos 2147483647) (view value.now)) }
{
    *setting = number(key, least as i64, i32::MAX as i64, value)? as i32;
    Ok(())
}

/// Puts a time in milliseconds, at least `least`.
pub(crate) fn put_millis(
    setting: &mut i64,
    key: &'static str,
    least: i64,
    value: &Value,
) -> Result<(), SettingsFault>
    ensures { Puts (λ z. z) result setting.new
        (number_in key.now least greatest_millis (view value.now)) }
{
    *setting = number(key, least, GREATEST_MILLIS, value)?;
    Ok(())
}

/// Returns the number of a key, from `least` to `greatest`.
fn number(key: &'static str, least: i64, greatest: i64, value: &Value) -> Result<i64, SettingsFault>
    ensures exact { ReturnsReading result (number_in key.now least greatest (view value.now)) }
    ensures in_range { IfOk result (λ number. (least ≤ℤ number) × (number ≤ℤ greatest)) }
{
    match value.as_integer() {
        Some(number) if least <= number && number <= greatest => Ok(number),
        Some(_) => Err(SettingsFault::OutOfRange(key)),
        None => Err(SettingsFault::WrongType(key)),
    }
}
