//! The settings of a pool: their defaults, their getters, and how they are read from a text.
ghost use Rattle.std.specs.Prelude.{◌≡◌, [], Ok, IfOk};
ghost use Rattle.pool_settings.specs.Answer.{IsAnswer};
ghost use Rattle.pool_settings.specs.Defaults.{defaults};
ghost use Rattle.pool_settings.specs.EffectiveMinIdle.{effective_min_idle};
ghost use Rattle.pool_settings.specs.Ranges.{IsInRange};

use crate::fault::SettingsFault;
use crate::reading::put_table;
use std::alloc::Global;

/// The settings of a pool. A key of a settings text has the field's name with capitals in place of underscores, as
/// `maxTotal`. The fields that begin with `remove_abandoned` are keys of the table `abandoned`.
#[derive(Clone, Copy, Debug, PartialEq, Eq)]
pub struct Settings {
    /// Whether lent objects that no caller uses any more can be reclaimed.
    pub abandoned: bool,
    /// Whether a borrow waits if no object is free; otherwise it fails at once.
    pub block_when_exhausted: bool,
    /// The number of entries that the journal can hold, from 1 to 2^32.
    pub journal_limit: u64,
    /// Whether the object that was parked last is lent first; otherwise the one that was parked first.
    pub lifo: bool,
    /// The greatest number of idle objects; negative for no limit.
    pub max_idle: i32,
    /// The greatest number of present objects; negative for no limit.
    pub max_total: i32,
    /// The longest time that a borrow waits, in milliseconds up to 2^53; negative for no limit.
    pub max_wait_millis: i64,
    /// The time that an object may be idle until it is evicted, in milliseconds up to 2^53; 0 or negative for no limit.
    pub min_evictable_idle_millis: i64,
    /// The number of idle objects to be kept ready, as far as `max_idle` allows; not negative in a text.
    pub min_idle: i32,
    /// The number of idle objects that an eviction run examines; at `-n`, one in n of them, rounded up.
    pub num_tests_per_eviction_run: i32,
    /// Whether a borrow reclaims abandoned objects first, if few are left.
    pub remove_abandoned_on_borrow: bool,
    /// Whether maintenance reclaims abandoned objects.
    pub remove_abandoned_on_maintenance: bool,
    /// The time that an object may be lent unused until it is abandoned, in milliseconds from 0 to 2^53.
    pub remove_abandoned_timeout_millis: i64,
    /// A limit like `min_evictable_idle_millis`, for objects beyond those that are to be kept ready.
    pub soft_min_evictable_idle_millis: i64,
    /// Whether an object is validated before it is lent.
    pub test_on_borrow: bool,
    /// Whether an object is validated after it is made.
    pub test_on_create: bool,
    /// Whether an object is validated when it is returned.
    pub test_on_return: bool,
    /// Whether idle objects are validated by an eviction run.
    pub test_while_idle: bool,
}

impl Default for Settings {
    ghost is_default = { λ s. s ≡ defaults };

    fn default() -> Self {
        Settings {
            abandoned: false,
            block_when_exhausted: true,
            journal_limit: 1_000_000,
            lifo: true,
            max_idle: 8,
            max_total: 8,
            max_wait_millis: -1,
            min_evictable_idle_millis: 1_800_000,
            min_idle: 0,
            num_tests_per_eviction_run: 3,
            remove_abandoned_on_borrow: false,
            remove_abandoned_on_maintenance: false,
            remove_abandoned_timeout_millis: 300_000,
            soft_min_evictable_idle_millis: -1,
            test_on_borrow: false,
            test_on_create: false,
            test_on_return: false,
            test_while_idle: false,
        }
    }
}

impl Settings {
    /// Reads settings from a TOML document. A setting that the document doesn't have has its default.
    ///
    /// # Errors
    ///
    /// Returns the first error: that of the document as a whole, then that of the first key, in the order of their
    /// bytes, that is unknown, of the wrong type or out of its range. The keys of the table `abandoned` are read at
    /// that key's position. May return `OutOfMemory` in place of each result, but always returns the defaults for the
    /// empty text.
    #[tactic(auto, using(crate::proofs::Blank::empty_document), unfolding(crate::specs::Answer::settings_of))]
    pub fn from_text(alloc: Global, text: &str) -> Result<Settings, SettingsFault>
        ensures answer { IsAnswer text.now result }
        ensures empty { text.now ≡ [] → result ≡ Ok defaults }
        ensures in_range { IfOk result IsInRange }
    {
        let table = match toml::table_from_str(alloc, text) {
            Ok(table) => table,
            Err(refused) if refused.is_memory() => return Err(SettingsFault::OutOfMemory),
            Err(_) => return Err(SettingsFault::NotToml),
        };
        let mut settings = Settings::default();
        put_table(alloc, &mut settings, &table)?;
        Ok(settings)
    }

    /// Returns the number of idle objects to keep ready: `min_idle`, but at most `max_idle` if that isn't negative.
    pub fn effective_min_idle(&self) -> i32
        ensures { result ≡ effective_min_idle self.now }
    {
        if self.max_idle < 0 {
            self.min_idle
        } else {
            self.min_idle.min(self.max_idle)
        }
    }

    /// Returns whether lent objects that no caller uses any more can be reclaimed.
    pub fn abandoned(&self) -> bool
        ensures { result ≡ self.now.abandoned }
    {
        self.abandoned
    }

    /// Returns whether a borrow waits if no object is free; otherwise it fails at once.
    pub fn block_when_exhausted(&self) -> bool
        ensures { result ≡ self.now.block_when_exhausted }
    {
        self.block_when_exhausted
    }

    /// Returns the number of entries that the journal can hold, from 1 to 2^32.
    pub fn journal_limit(&self) -> u64
        ensures { result ≡ self.now.journal_limit }
    {
        self.journal_limit
    }

    /// Returns whether the object that was parked last is lent first; otherwise the one that was parked first.
    pub fn lifo(&self) -> bool
        ensures { result ≡ self.now.lifo }
    {
        self.lifo
    }

    /// Returns the greatest number of idle objects; negative for no limit.
    pub fn max_idle(&self) -> i32
        ensures { result ≡ self.now.max_idle }
    {
        self.max_idle
    }

    /// Returns the greatest number of present objects; negative for no limit.
    pub fn max_total(&self) -> i32
        ensures { result ≡ self.now.max_total }
    {
        self.max_total
    }

    /// Returns the longest time that a borrow waits, in milliseconds up to 2^53; negative for no limit.
    pub fn max_wait_millis(&self) -> i64
        ensures { result ≡ self.now.max_wait_millis }
    {
        self.max_wait_millis
    }

    /// Returns the time that an object may be idle until it is evicted, in milliseconds up to 2^53; 0 or negative for
    /// no limit.
    pub fn min_evictable_idle_millis(&self) -> i64
        ensures { result ≡ self.now.min_evictable_idle_millis }
    {
        self.min_evictable_idle_millis
    }

    /// Returns the number of idle objects to be kept ready, as far as `max_idle` allows; not negative in a text.
    pub fn min_idle(&self) -> i32
        ensures { result ≡ self.now.min_idle }
    {
        self.min_idle
    }

    /// Returns the number of idle objects that an eviction run examines; at `-n`, one in n of them, rounded up.
    pub fn num_tests_per_eviction_run(&self) -> i32
        ensures { result ≡ self.now.num_tests_per_eviction_run }
    {
        self.num_tests_per_eviction_run
    }

    /// Returns whether a borrow reclaims abandoned objects first, if few are left.
    pub fn remove_abandoned_on_borrow(&self) -> bool
        ensures { result ≡ self.now.remove_abandoned_on_borrow }
    {
        self.remove_abandoned_on_borrow
    }

    /// Returns whether maintenance reclaims abandoned objects.
    pub fn remove_abandoned_on_maintenance(&self) -> bool
        ensures { result ≡ self.now.remove_abandoned_on_maintenance }
    {
        self.remove_abandoned_on_maintenance
    }

    /// Returns the time that an object may be lent unused until it is abandoned, in milliseconds from 0 to 2^53.
    pub fn remove_abandoned_timeout_millis(&self) -> i64
        ensures { result ≡ self.now.remove_abandoned_timeout_millis }
    {
        self.remove_abandoned_timeout_millis
    }

    /// Returns a limit like `min_evictable_idle_millis`, for objects beyond those that are to be kept ready.
    pub fn soft_min_evictable_idle_millis(&self) -> i64
        ensures { result ≡ self.now.soft_min_evictable_idle_millis }
    {
        self.soft_min_evictable_idle_millis
    }

    /// Returns whether an object is validated before it is lent.
    pub fn test_on_borrow(&self) -> bool
        ensures { result ≡ self.now.test_on_borrow }
    {
        self.test_on_borrow
    }

    /// Returns whether an object is validated after it is made.
    pub fn test_on_create(&self) -> bool
        ensures { result ≡ self.now.test_on_create }
    {
        self.test_on_create
    }

    /// Returns whether an object is validated when it is returned.
    pub fn test_on_return(&self) -> bool
        ensures { result ≡ self.now.test_on_return }
    {
        self.test_on_return
    }

    /// Returns whether idle objects are validated by an eviction run.
    pub fn test_while_idle(&self) -> bool
        ensures { result ≡ self.now.test_while_idle }
    {
        self.test_while_idle
    }
}
