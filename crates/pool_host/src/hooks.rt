//! Which calls the factory of a pool has, besides making and destroying.
ghost use Rattle.std.specs.Prelude.{◌≡◌};
ghost use Rattle.pool_host.specs.Hosting.{plan_of};

use pool_calls::HookPlan;
use pool_settings::Settings;

/// Which calls the factory of a pool has, besides making and destroying.
#[derive(Clone, Copy, Debug, PartialEq, Eq)]
pub struct Hooks {
    /// Whether it activates an object that is to be lent.
    pub activates: bool,
    /// Whether it tests objects. Otherwise each passes.
    pub validates: bool,
    /// Whether it passivates an object that is to be idle.
    pub passivates: bool,
}

impl Hooks {
    /// Returns what the calls of a pool have to know of its settings and of these hooks.
    pub fn plan(&self, settings: &Settings) -> HookPlan
        ensures { result ≡ plan_of settings.now self.now }
    {
        HookPlan {
            remove_abandoned_on_borrow: settings.remove_abandoned_on_borrow,
            test_on_create: settings.test_on_create && self.validates,
            test_on_borrow: settings.test_on_borrow && self.validates,
            test_on_return: settings.test_on_return && self.validates,
            activates: self.activates,
            passivates: self.passivates,
        }
    }
}
