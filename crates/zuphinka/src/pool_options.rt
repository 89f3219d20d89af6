//! The options of a pool besides its settings, as C passes them.
ghost use Rattle.std.specs.Prelude.{◌≡◌};
ghost use Rattle.zuphinka.specs.Opening.{no_options, options_of};

use pool_host::{Hooks, Options};

/// How a pool works besides its settings, as C passes it.
#[repr(C)]
#[derive(Clone, Copy)]
pub struct PoolOptions {
    /// The host's number of the pool.
    pub pool: u64,
    /// How often a borrow that has waited for `overtake_millis` is overtaken at most; at 0 never.
    pub max_overtakes: u64,
    /// For how long, in milliseconds, a borrow that waits may be overtaken any number of times before.
    pub overtake_millis: u64,
    /// Whether the factory activates an object that is to be lent.
    pub activates: bool,
    /// Whether it tests objects.
    pub validates: bool,
    /// Whether it passivates an object that is to be idle.
    pub passivates: bool,
    /// Whether the pool drops its journal.
    pub drops_journal: bool,
}

// The size in `zuphinka.h`.
const _: () = prove!(size_of::<PoolOptions>() == 32);

impl PoolOptions {
    /// Returns the options of a pool without hooks, whose number is 0.
    pub(crate) fn none() -> PoolOptions
        ensures { result ≡ no_options }
    {
        PoolOptions {
            pool: 0,
            max_overtakes: 0,
            overtake_millis: 0,
            activates: false,
            validates: false,
            passivates: false,
            drops_journal: false,
        }
    }

    pub(crate) fn options(&self) -> Options
        ensures { result ≡ options_of self.now }
    {
        Options {
            hooks: Hooks {
                activates: self.activates,
                validates: self.validates,
                passivates: self.passivates,
            },
            max_overtakes: self.max_overtakes,
            overtake_millis: self.overtake_millis,
            drops_journal: self.drops_journal,
        }
    }
}
