//! The settings that hold for a segment.
ghost use Rattle.std.specs.Prelude.{◌≡◌};
ghost use Rattle.judge.specs.Rules as Spec;

use pool_settings::Settings;

/// Settings that hold from a position on.
#[derive(Clone, Copy)]
pub(crate) struct Change {
    pub position: u64,
    pub settings: Settings,
}

/// Returns the settings at a position: those of the last of the changes that is not after it, or else the first ones.
pub(crate) fn settings_at(first: Settings, changes: &[Change], position: u64) -> Settings
    ensures { result ≡ Spec.settings_at first changes.now position }
{
    let mut settings = first;
    for change in changes {
        if change.position <= position {
            settings = change.settings;
        }
    }
    settings
}
