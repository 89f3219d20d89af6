//! The settings as C reads them, and the key that an error in settings names.
ghost use Rattle.std.specs.Prelude.{◌≡◌};
ghost use Rattle.zuphinka.specs.Setting.{setup_of, key_of, KeyTold, NameTold};

use pool_settings::{Settings, SettingsFault};

/// The settings, as C reads them.
#[repr(C)]
#[derive(Clone, Copy)]
pub struct Setup {
    /// The greatest number of entries in the journal.
    pub journal_limit: u64,
    /// The longest time that a borrow waits, in milliseconds; negative for no limit.
    pub max_wait_millis: i64,
    /// The time after which an idle object is evicted, in milliseconds; 0 or negative for no such eviction.
    pub min_evictable_idle_millis: i64,
    /// The time after which a lent object that is not used is abandoned, in milliseconds.
    pub remove_abandoned_timeout_millis: i64,
    /// The same as `min_evictable_idle_millis`, for objects beyond the number of idle objects to keep ready.
    pub soft_min_evictable_idle_millis: i64,
    /// The greatest number of idle objects; negative for no limit.
    pub max_idle: i32,
    /// The greatest number of present objects; negative for no limit.
    pub max_total: i32,
    /// The number of idle objects to keep ready, as far as `max_idle` allows.
    pub min_idle: i32,
    /// The number of idle objects that an eviction run examines; at `-n`, one in n of them, rounded up.
    pub num_tests_per_eviction_run: i32,
    /// Whether abandoned objects can be reclaimed.
    pub abandoned: bool,
    /// Whether a borrow waits if no object is free; otherwise it fails at once.
    pub block_when_exhausted: bool,
    /// Whether the object that was parked last is lent first; otherwise the one that was parked first.
    pub lifo: bool,
    /// Whether a borrow first reclaims abandoned objects, if few are left.
    pub remove_abandoned_on_borrow: bool,
    /// Whether maintenance reclaims abandoned objects.
    pub remove_abandoned_on_maintenance: bool,
    /// Whether an object is validated before it is lent.
    pub test_on_borrow: bool,
    /// Whether an object is validated after it is made.
    pub test_on_create: bool,
    /// Whether an object is validated when it is returned.
    pub test_on_return: bool,
    /// Whether idle objects are validated by an eviction run.
    pub test_while_idle: bool,
}

impl Setup {
    pub(crate) fn of(settings: &Settings) -> Setup
        ensures { result ≡ setup_of settings.now }
    {
        Setup {
            journal_limit: settings.journal_limit,
            max_wait_millis: settings.max_wait_millis,
            min_evictable_idle_millis: settings.min_evictable_idle_millis,
            remove_abandoned_timeout_millis: settings.remove_abandoned_timeout_millis,
            soft_min_evictable_idle_millis: settings.soft_min_evictable_idle_millis,
            max_idle: settings.max_idle,
            max_total: settings.max_total,
            min_idle: settings.min_idle,
            num_tests_per_eviction_run: settings.num_tests_per_eviction_run,
            abandoned: settings.abandoned,
            block_when_exhausted: settings.block_when_exhausted,
            lifo: settings.lifo,
            remove_abandoned_on_borrow: settings.remove_abandoned_on_borrow,
            remove_abandoned_on_maintenance: settings.remove_abandoned_on_maintenance,
            test_on_borrow: settings.test_on_borrow,
            test_on_create: settings.test_on_create,
            test_on_return: settings.test_on_return,
            test_while_idle: settings.test_while_idle,
        }
    }
}

/// Stores the key that an error names at the start of `key`, if it fits, and its length in `size`.
pub(crate) fn put_key(fault: &SettingsFault, key: &mut [u8], size: &mut u64)
    ensures { KeyTold (key_of fault.now) key.old key.new size.old size.new }
{
    match fault {
        SettingsFault::UnknownKey(name) => put_name(name.as_str(), key, size),
        SettingsFault::WrongType(name) | SettingsFault::OutOfRange(name) => {
            put_name(name, key, size)
        }
        SettingsFault::NotToml | SettingsFault::OutOfMemory => {}
    }
}

fn put_name(name: &str, key: &mut [u8], size: &mut u64)
    ensures { NameTold name.now key.old key.new size.new }
{
    let bytes = name.as_bytes();
    *size = bytes.len() as u64;
    if key.len() < bytes.len() {
        return;
    }
    key[..bytes.len()].copy_from_slice(bytes);
}
