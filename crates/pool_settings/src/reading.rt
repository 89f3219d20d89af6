//! Reads settings from a table of TOML: each key and its setting.
ghost use Rattle.std.specs.Prelude.{◌≡◌, ◌≢◌, bytes_eq, codes, [], ◌++◌, drop};
ghost use Rattle.toml.specs.View.{table_view, view};
ghost use Rattle.pool_settings.specs.Faults.{fault_of, out_of_memory, unknown_key, LeavesSettings};
ghost use Rattle.pool_settings.specs.Keys.{abandoned_rows, abandoned_table, read_key, read_table, rows};

use crate::fault::SettingsFault;
use crate::key_name::KeyName;
use crate::settings::Settings;
use crate::value::{put_count, put_flag, put_limit, put_millis};
use std::alloc::Global;
use toml::{Table, Value};

/// Puts all keys of a table into the settings, in the order of their bytes, up to the first error.
pub(crate) fn put_table(
    alloc: Global,
    settings: &mut Settings,
    table: &Table,
) -> Result<(), SettingsFault>
    ensures { LeavesSettings result settings.new
        (read_table [] rows (table_view table.now) settings.old) }
{
    for (key, value) in table.iter() {
        put_key(alloc, settings, key.as_str(), value)?;
    }
    Ok(())
}

/// Puts the value of a key.
fn put_key(
    alloc: Global,
    settings: &mut Settings,
    key: &str,
    value: &Value,
) -> Result<(), SettingsFault>
    ensures { LeavesSettings result settings.new
        (read_key [] rows key.now (view value.now) settings.old) }
{
    if is_named(key, "abandoned") {
        put_abandoned(alloc, settings, value)
    } else if is_named(key, "blockWhenExhausted") {
        put_flag(
            &mut settings.block_when_exhausted,
            "blockWhenExhausted",
            value,
        )
    } else if is_named(key, "journalLimit") {
        put_limit(&mut settings.journal_limit, "journalLimit", value)
    } else if is_named(key, "lifo") {
        put_flag(&mut settings.lifo, "lifo", value)
    } else if is_named(key, "maxIdle") {
        put_count(&mut settings.max_idle, "maxIdle", i32::MIN, value)
    } else if is_named(key, "maxTotal") {
        put_count(&mut settings.max_total, "maxTotal", i32::MIN, value)
    } else if is_named(key, "maxWaitMillis") {
        put_millis(&mut settings.max_wait_millis, "maxWaitMillis", -1, value)
    } else {
        put_eviction_key(alloc, settings, key, value)
    }
}

/// Puts one of the keys from `minEvictableIdleMillis` on.
fn put_eviction_key(
    alloc: Global,
    settings: &mut Settings,
    key: &str,
    value: &Value,
) -> Result<(), SettingsFault>
    ensures { LeavesSettings result settings.new
        (read_key [] (drop 7 rows) key.now (view value.now) settings.old) }
{
    if is_named(key, "minEvictableIdleMillis") {
        put_millis(
            &mut settings.min_evictable_idle_millis,
            "minEvictableIdleMillis",
            -1,
            value,
        )
    } else if is_named(key, "minIdle") {
        put_count(&mut settings.min_idle, "minIdle", 0, value)
    } else if is_named(key, "numTestsPerEvictionRun") {
        put_count(
            &mut settings.num_tests_per_eviction_run,
            "numTestsPerEvictionRun",
            i32::MIN,
            value,
        )
    } else if is_named(key, "softMinEvictableIdleMillis") {
        put_millis(
            &mut settings.soft_min_evictable_idle_millis,
            "softMinEvictableIdleMillis",
            -1,
            value,
        )
    } else {
        put_test_key(alloc, settings, key, value)
    }
}

/// Puts one of the keys from `testOnBorrow` on.
fn put_test_key(
    alloc: Global,
    settings: &mut Settings,
    key: &str,
    value: &Value,
) -> Result<(), SettingsFault>
    ensures { LeavesSettings result settings.new
        (read_key [] (drop 11 rows) key.now (view value.now) settings.old) }
{
    if is_named(key, "testOnBorrow") {
        put_flag(&mut settings.test_on_borrow, "testOnBorrow", value)
    } else if is_named(key, "testOnCreate") {
        put_flag(&mut settings.test_on_create, "testOnCreate", value)
    } else if is_named(key, "testOnReturn") {
        put_flag(&mut settings.test_on_return, "testOnReturn", value)
    } else if is_named(key, "testWhileIdle") {
        put_flag(&mut settings.test_while_idle, "testWhileIdle", value)
    } else {
        Err(unknown(alloc, "", key))
    }
}

/// Puts the table of abandoned objects into the settings.
fn put_abandoned(alloc: Global, settings: &mut Settings, value: &Value) -> Result<(), SettingsFault>
    ensures { LeavesSettings result settings.new
        (abandoned_table (codes "abandoned") (view value.now) settings.old) }
{
    match value.as_table() {
        Some(table) => {
            settings.abandoned = true;
            put_abandoned_table(alloc, settings, table)
        }
        None => Err(SettingsFault::WrongType("abandoned")),
    }
}

/// Puts all keys of the table `abandoned` into the settings, in the order of their bytes, up to the first error.
fn put_abandoned_table(
    alloc: Global,
    settings: &mut Settings,
    abandoned: &Table,
) -> Result<(), SettingsFault>
    ensures { LeavesSettings result settings.new
        (read_table (codes "abandoned.") abandoned_rows (table_view abandoned.now) settings.old) }
{
    for (key, value) in abandoned.iter() {
        put_abandoned_key(alloc, settings, key.as_str(), value)?;
    }
    Ok(())
}

/// Puts the value of a key of the table of abandoned objects.
fn put_abandoned_key(
    alloc: Global,
    settings: &mut Settings,
    key: &str,
    value: &Value,
) -> Result<(), SettingsFault>
    ensures { LeavesSettings result settings.new
        (read_key (codes "abandoned.") abandoned_rows key.now (view value.now) settings.old) }
{
    if is_named(key, "removeAbandonedOnBorrow") {
        put_flag(
            &mut settings.remove_abandoned_on_borrow,
            "abandoned.removeAbandonedOnBorrow",
            value,
        )
    } else if is_named(key, "removeAbandonedOnMaintenance") {
        put_flag(
            &mut settings.remove_abandoned_on_maintenance,
            "abandoned.removeAbandonedOnMaintenance",
            value,
        )
    } else if is_named(key, "removeAbandonedTimeoutMillis") {
        put_millis(
            &mut settings.remove_abandoned_timeout_millis,
            "abandoned.removeAbandonedTimeoutMillis",
            0,
            value,
        )
    } else {
        Err(unknown(alloc, "abandoned.", key))
    }
}

/// Returns whether a key has this name.
fn is_named(key: &str, name: &str) -> bool
    ensures { result ≡ bytes_eq key.now name.now }
{
    key == name
}

/// Returns the error of a key that no setting has.
fn unknown(alloc: Global, prefix: &str, key: &str) -> SettingsFault
    ensures { fault_of result ≢ out_of_memory
        → fault_of result ≡ unknown_key (prefix.now ++ key.now) }
{
    match KeyName::new(alloc, prefix, key) {
        Ok(name) => SettingsFault::UnknownKey(name),
        Err(_) => SettingsFault::OutOfMemory,
    }
}
